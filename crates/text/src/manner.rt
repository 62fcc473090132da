// Manners of writing numbers.
ghost use Rattle.std.specs.Prelude.{Some, codes};

use std::error::Error;
use std::fmt;
use std::str::FromStr;

// How the number of a kept symbol is written: as one byte, or in the fewest groups of seven bits.
#[derive(Clone, Copy, Debug, PartialEq, Eq)]
pub enum Manner {
    Plain,
    Numbered,
}

// A word that names no manner.
#[derive(Clone, Copy, Debug, PartialEq, Eq)]
pub struct UnknownManner;

impl fmt::Display for UnknownManner {
    ghost output = { λ _. Some (codes "a manner is plain or numbered") };

    fn fmt<W: fmt::Write>(&self, f: &mut fmt::Formatter<W>) -> fmt::Result {
        write!(f, "a manner is plain or numbered")
    }
}

impl Error for UnknownManner {}

// Reads the word that names a manner.
impl FromStr for Manner {
    type Err = UnknownManner;

    ghost use Rattle.text.specs.Manners.{NamesManner};

    ghost from_str_gives = { NamesManner };

    fn from_str(word: &str) -> Result<Manner, UnknownManner> {
        match word {
            "plain" => Ok(Manner::Plain),
            "numbered" => Ok(Manner::Numbered),
            _ => Err(UnknownManner),
        }
    }
}
