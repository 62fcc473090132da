// The bytes that a kept symbol adds.
ghost use Rattle.std.specs.Prelude.{◌≡◌, ◌≤◌, true, false, MatchOption};
ghost use Rattle.alphabet.specs.Bounds.{largest_number};
ghost use Rattle.pattern.specs.Numbers.{shortest};
ghost use Rattle.text.specs.TextMeaning.{number_bytes, writable};

use crate::manner::Manner;
use arrayvec::ArrayVec;

// A byte from here on says that another group of seven bits follows.
const MORE: u32 = 128;

// At most three bytes.
pub(crate) type Tail = ArrayVec<u8, 3>;

// A symbol's number as the manner writes it, if it can.
pub(crate) fn tail_of(manner: Manner, number: u32) -> Option<Tail>
    requires { number ≤ largest_number }
    ensures { MatchOption result (writable manner number ≡ false) (λ t. (writable manner number ≡ true) × (t.items ≡ number_bytes manner number)) }
{
    match manner {
        Manner::Numbered => Some(groups(number)),
        Manner::Plain => {
            let byte = u8::try_from(number).ok()?;
            let mut tail = Tail::new();
            tail.push(byte);
            Some(tail)
        }
    }
}

// A number in the fewest groups of seven bits, the lowest first.
fn groups(number: u32) -> Tail
    requires { number ≤ largest_number }
    ensures { result.items ≡ shortest number }
{
    let mut tail = Tail::new();
    let mut rest = number;
    while rest >= MORE {
        tail.push((rest % MORE + MORE) as u8);
        rest /= MORE;
    }
    tail.push(rest as u8);
    tail
}
