// The byte of a sink of bits that is not full yet.
ghost use Rattle.std.specs.Prelude.{◌≡◌, ◌^◌, ◌<◌, []};
ghost use Rattle.std.specs.Option.{option_to_list};
ghost use Rattle.alphabet.specs.Choices.{last_byte};
ghost use Rattle.sink.specs.BitsMeaning.{unfilled};

use alphabet::item::{END_MARK, FIRST, SECOND};

// The bits of a byte that is not full yet, as the number that they write.
#[derive(Clone, Copy)]
pub(crate) struct Unfilled {
    value: u8,
    count: u8,
    ghost few: { count < 8 },
    ghost below: { value < 2 ^ count },
}

// What an item does to the bits: the byte that is then complete, and what is unfilled after it; nothing is after the end mark.
#[derive(Clone, Copy)]
pub(crate) struct Step {
    pub byte: Option<u8>,
    pub after: Option<Unfilled>,
}

impl Unfilled {
    ghost use Rattle.sink.specs.Unfilled.{bits_in, Steps};

    // No bit yet.
    pub(crate) fn new() -> Unfilled
        ensures { bits_in result ≡ [] }
    {
        Unfilled { value: 0, count: 0 }
    }

    // What the item does, where it is expected.
    pub(crate) fn step(self, item: u32) -> Step
        ensures { Steps (unfilled (bits_in self)) item result }
    {
        match item {
            FIRST => self.with_bit(0),
            SECOND => self.with_bit(1),
            END_MARK => Step {
                byte: self.filled(),
                after: None,
            },
            _ => Step {
                byte: None,
                after: Some(self),
            },
        }
    }

    // A branch adds its bit below the others, and the eighth completes the byte.
    fn with_bit(self, bit: u8) -> Step
        requires { bit < 2 }
        ensures { Steps (unfilled (bits_in self)) bit result }
    {
        let value = self.value * 2 + bit;
        if self.count == 7 {
            Step {
                byte: Some(value),
                after: Some(Unfilled::new()),
            }
        } else {
            Step {
                byte: None,
                after: Some(Unfilled {
                    value,
                    count: self.count + 1,
                }),
            }
        }
    }

    // The byte that the bits begin, filled with zeros, if there is a bit.
    fn filled(self) -> Option<u8>
        ensures { option_to_list result ≡ last_byte (bits_in self) }
    {
        if self.count == 0 {
            None
        } else {
            Some(self.value << (8 - self.count))
        }
    }
}
