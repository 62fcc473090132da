// Handing items over and pouring what was written of them.
ghost use Rattle.std.specs.Prelude.{◌≡◌, ℕ, List, [], ◌∷◌, ◌++◌, length, is_ok, if◌then◌else◌};
ghost use Rattle.alphabet.specs.Items.{end_mark};
ghost use Rattle.alphabet.specs.Choices.{choices, packed};
ghost use Rattle.sink.specs.Meaning.{nothing, emptied, fronted};
ghost use Rattle.sink.specs.BitsMeaning.{bits_meaning, unfilled};
ghost use Rattle.sink.specs.Writing.{write_answer, position_then, stocks_then};

use crate::Sink;
use crate::bits::Bits;
use crate::handing::hand_over;
use fault::Fault;

// Hands the items to the sink and, where it takes all, pours the channel.
pub fn hand_and_pour<S: Sink>(
    sink: &mut S,
    items: &[u32],
    channel: u32,
    buffer: &mut [u8],
) -> Result<usize, Fault>
    ensures answer { result ≡ write_answer S.meaning (S.position sink.old) (S.stock sink.old) items.now channel (length buffer.old) }
    ensures moved { S.position sink.new ≡ position_then S.meaning (S.position sink.old) (S.stock sink.old) items.now }
    ensures stocked { S.stock sink.new ≡ (if is_ok result then emptied (stocks_then S.meaning (S.position sink.old) (S.stock sink.old) items.now) channel else stocks_then S.meaning (S.position sink.old) (S.stock sink.old) items.now) }
    ensures written { buffer.new ≡ (if is_ok result then fronted (stocks_then S.meaning (S.position sink.old) (S.stock sink.old) items.now channel) buffer.old else buffer.old) }
{
    hand_over(sink, items).answer?;
    sink.pour(channel, buffer)
}

// Writes the bits of the items to the front of the buffer: those of a code up to its end mark are its choices, packed.
pub fn file_bits(items: &[u32], buffer: &mut [u8]) -> Result<usize, Fault>
    ensures answer { result ≡ write_answer bits_meaning (unfilled []) nothing items.now 0 (length buffer.old) }
    ensures written { buffer.new ≡ (if is_ok result then fronted (stocks_then bits_meaning (unfilled []) nothing items.now 0) buffer.old else buffer.old) }
    ensures filed { (xs : List ℕ) → items.now ≡ xs ++ end_mark ∷ [] → buffer.new ≡ (if is_ok result then fronted (packed (choices items.now)) buffer.old else buffer.old) }
{
    let mut sink = Bits::new();
    hand_and_pour(&mut sink, items, 0, buffer)
}
