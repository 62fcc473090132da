// Numbers of pattern files: groups of seven bits, lowest group first.
ghost use Rattle.std.specs.Prelude.{◌≡◌, drop};
ghost use Rattle.pattern.specs.Numbers.{number, found};

use crate::limits::LARGEST_NUMBER;

// A byte from here on says that another byte of the number follows; its other seven bits are the group.
const MORE: u8 = 128;

// A number that was read, and the offset of what follows it.
#[derive(Clone, Copy, Debug, PartialEq)]
pub struct Number {
    pub value: u16,
    pub next: usize,
}

// The number at the offset `at` of a file: at most three bytes, at most 65,535. Nothing where none can be read there.
pub fn read_number(file: &[u8], at: usize) -> Option<Number>
    ensures { result ≡ found at (number (drop at file.now)) }
{
    let (value, length) = match *file.get(at..)? {
        [a, ..] if a < MORE => (u32::from(a), 1),
        [a, b, ..] if b < MORE => (u32::from(a % MORE) + 128 * u32::from(b), 2),
        [a, b, c, ..] if c < MORE => (
            u32::from(a % MORE) + 128 * u32::from(b % MORE) + 16384 * u32::from(c),
            3,
        ),
        _ => return None,
    };
    if value > LARGEST_NUMBER {
        return None;
    }
    Some(Number {
        value: value as u16,
        next: at + length,
    })
}
