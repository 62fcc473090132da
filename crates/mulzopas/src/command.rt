// The commands of the program.
use crate::{again, reading};
use anyhow::anyhow;
use console::{Commands, Failure, Patterns, hand_items, pattern_of, show_files, told};
use pattern::Pattern;
use std::fs;
use std::rt::Files;

const USAGE: &str =
    "usage: mulzopas show FILE.. | items PATTERN plain|numbered ITEM.. | replay PATTERN plain|numbered BITS INPUT ROWS | read PATTERN plain|numbered INPUT ROWS BITS | batch FILE";

// Tells how the program is called, on standard error: an error's own text has room for 120 bytes.
fn wrong_words(rt: &impl Eprint) -> Result<(), Failure> {
    eprintln!(rt; "{USAGE}")?;
    Err(anyhow!("the words are wrong").into())
}

// The pattern of the file of this name. Its refusal is told.
pub(crate) fn load<R: Files + Print + AllocGlobal>(rt: &R, name: &str) -> Result<Pattern, Failure> {
    told(rt, pattern_of(&fs::read(rt, name)?))
}

// The pattern files of the program.
#[derive(Drop)]
struct PatternFiles<'r, R> {
    rt: &'r R,
}

impl<R: Files + Print + AllocGlobal> Patterns for PatternFiles<'_, R> {
    fn load(&self, name: &str) -> Result<Pattern, Failure> {
        load(self.rt, name)
    }
}

// The program, by its commands.
#[derive(Drop)]
pub(crate) struct Program<'r, R> {
    pub(crate) rt: &'r R,
}

impl<R: Files + Input + Print + Eprint + AllocGlobal> Commands for Program<'_, R> {
    fn perform(&self, words: &[String]) -> Result<(), Failure> {
        let rt = self.rt;
        let [name, rest @ ..] = words else {
            return wrong_words(rt);
        };
        match name.as_str() {
            "show" => show_files(rt, rest),
            "items" => hand_items(rt, "mulzopas", rest, &PatternFiles { rt }),
            "replay" => again::run(rt, rest),
            "read" => reading::run(rt, rest),
            _ => wrong_words(rt),
        }
    }
}
