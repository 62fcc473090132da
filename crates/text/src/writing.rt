// Writing the text of a code.
ghost use Rattle.std.specs.Prelude.{◌≡◌, length, is_ok, if◌then◌else◌};
ghost use Rattle.sink.specs.Meaning.{nothing, fronted};
ghost use Rattle.sink.specs.Writing.{write_answer};
ghost use Rattle.text.specs.TextMeaning.{text_meaning, text_of_items};
ghost use Rattle.text.specs.TextState.{start_of};

use crate::manner::Manner;
use crate::text::Text;
use fault::Fault;
use pattern::Pattern;
use sink::hand_and_pour;

// Writes the text of the items to the front of the buffer.
pub fn write_text(
    pattern: &Pattern,
    manner: Manner,
    items: &[u32],
    buffer: &mut [u8],
) -> Result<usize, Fault>
    ensures answer { result ≡ write_answer text_meaning (start_of pattern.now manner) nothing items.now 0 (length buffer.old) }
    ensures written { buffer.new ≡ (if is_ok result then fronted (text_of_items (start_of pattern.now manner) items.now) buffer.old else buffer.old) }
{
    let mut sink = Text::new(pattern, manner);
    hand_and_pour(&mut sink, items, 0, buffer)
}
