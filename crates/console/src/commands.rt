// How a program is called: one command, or a file of commands.
use crate::failure::Failure;
use std::rt::{Env, Files};
use std::{env, fs};

// The commands of a program. A trait, since a function that is passed a closure has to ask that it may be called.
pub trait Commands {
    // Performs the command of these words.
    fn perform(&self, words: &[String]) -> Result<(), Failure>;
}

// Performs each line of a file, after printing it. Refusals are told and passed over.
fn batch<R: Files + Print + AllocGlobal, C: Commands>(
    rt: &R,
    name: &str,
    commands: &C,
) -> Result<(), Failure> {
    let heap = rt.alloc();
    let text = fs::read_to_string(rt, name)?;
    for line in text.as_str().lines() {
        let words: Vec<String> = line
            .split_whitespace()
            .map(|word| String::from_str(heap, word))
            .try_collect(heap)?;
        println!(rt; "> {line}")?;
        match commands.perform(&words) {
            Ok(()) | Err(Failure::Refused) => {}
            Err(error) => return Err(error),
        }
    }
    Ok(())
}

// Performs the command that the program was called with; `batch FILE` performs each line of the file.
pub fn run<R: Env + Files + Print + AllocGlobal, C: Commands>(
    rt: &R,
    commands: &C,
) -> anyhow::Result<()> {
    let words: Vec<String> = env::args(rt)?.skip(1).collect(rt.alloc())?;
    let done = match words.as_slice() {
        [name, file] if name.as_str() == "batch" => batch(rt, file.as_str(), commands),
        words => commands.perform(words),
    };
    done.map_err(Failure::into_error)
}
