// What the words of a command name.
use anyhow::anyhow;
use console::{Failure, pattern_of, told};
use pattern::Pattern;
use std::rt::Files;
use std::str::FromStr;
use std::{fs, io};

// The alphabets that an input can be read by.
#[derive(Clone, Copy)]
pub(crate) enum Letters {
    // Each byte of the input is a symbol.
    Bytes,
    // Each line of the input is a relay event: its kind and its value.
    Tokens,
}

impl FromStr for Letters {
    type Err = anyhow::Error;

    fn from_str(word: &str) -> anyhow::Result<Letters> {
        match word {
            "bytes" => Ok(Letters::Bytes),
            "tokens" => Ok(Letters::Tokens),
            _ => Err(anyhow!("an alphabet is bytes or tokens")),
        }
    }
}

// An error with the name of the file that it is about.
pub(crate) fn about(name: &str, error: io::Error) -> anyhow::Error {
    anyhow!("{name}: {error}")
}

// The bytes of the file of this name.
pub(crate) fn bytes_of<R: Files + AllocGlobal>(rt: &R, name: &str) -> anyhow::Result<Vec<u8>> {
    fs::read(rt, name).map_err(|error| about(name, error))
}

// The pattern of the file of this name. Its refusal is told.
pub(crate) fn load<R: Files + Print + AllocGlobal>(rt: &R, name: &str) -> Result<Pattern, Failure> {
    let pattern = told(rt, pattern_of(&bytes_of(rt, name)?));
    if let Err(Failure::Refused) = &pattern {
        println!(rt; "left behind: nothing, since {name} is no pattern")?;
    }
    pattern
}
