// The operations of a pattern file.
ghost use Rattle.pattern.specs.Operations.{Decodes};

use std::error::Error;
use std::fmt;

#[derive(Clone, Copy, Debug, PartialEq)]
pub enum Operation {
    // the empty expression
    Empty,
    // a read that drops its symbol; its class follows
    Drops,
    // a read that keeps its symbol; its class follows
    Keeps,
    // a text; its length and its bytes follow
    Text,
    // a sequence of the last two expressions
    Sequence,
    // a choice of the last two expressions
    Choice,
    // a star of the last expression
    Star,
}

// A number that no operation has.
#[derive(Clone, Copy, Debug, PartialEq)]
pub struct UnknownOperation(pub u16);

impl TryFrom<u16> for Operation {
    type Error = UnknownOperation;

    ghost try_from_gives = { Decodes };

    fn try_from(number: u16) -> Result<Self, UnknownOperation> {
        match number {
            0 => Ok(Operation::Empty),
            1 => Ok(Operation::Drops),
            2 => Ok(Operation::Keeps),
            3 => Ok(Operation::Text),
            4 => Ok(Operation::Sequence),
            5 => Ok(Operation::Choice),
            6 => Ok(Operation::Star),
            _ => Err(UnknownOperation(number)),
        }
    }
}

impl fmt::Display for UnknownOperation {
    fn fmt<W: fmt::Write>(&self, f: &mut fmt::Formatter<W>) -> fmt::Result {
        write!(f, "no operation has the number {}", self.0)
    }
}

impl Error for UnknownOperation {}
