// What ends a command early.
ghost use Rattle.std.specs.Prelude.{◌≡◌, Ok, MatchResult, IsErr};

use anyhow::anyhow;
use fault::Fault;
use std::alloc::AllocError;
use std::io;
use text::UnknownManner;

// Why a command was not done.
#[derive(Debug, Drop)]
pub enum Failure {
    // Something was refused, which a line has told. A file of commands goes on.
    Refused,
    // Any other error. It ends the program.
    Other(anyhow::Error),
}

impl From<io::Error> for Failure {
    fn from(error: io::Error) -> Failure {
        Failure::Other(error.into())
    }
}

impl From<AllocError> for Failure {
    fn from(error: AllocError) -> Failure {
        Failure::Other(error.into())
    }
}

impl From<anyhow::Error> for Failure {
    fn from(error: anyhow::Error) -> Failure {
        Failure::Other(error)
    }
}

impl From<UnknownManner> for Failure {
    fn from(error: UnknownManner) -> Failure {
        Failure::Other(error.into())
    }
}

impl Failure {
    // The error with which the program ends.
    pub(crate) fn into_error(self) -> anyhow::Error {
        match self {
            Failure::Refused => anyhow!("refused"),
            Failure::Other(error) => error,
        }
    }
}

// The value that the library answered. A fault is told on a line.
pub fn told<T>(rt: &impl Print, answer: Result<T, Fault>) -> Result<T, Failure>
    ensures { MatchResult answer (λ value. result ≡ Ok value) (λ _. IsErr result) }
{
    match answer {
        Ok(value) => Ok(value),
        Err(fault) => {
            println!(rt; "{fault}")?;
            Err(Failure::Refused)
        }
    }
}
