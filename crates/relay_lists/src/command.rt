// The commands of the program.
use crate::list;
use crate::words::load;
use console::{Commands, Failure, Patterns, hand_items, show_files};
use pattern::Pattern;
use std::rt::Files;

const USAGE: &str = "usage:
  relay_lists read PATTERN bytes|tokens plain|numbered INPUT ROWS CHOICES
  relay_lists replay PATTERN bytes|tokens plain|numbered INPUT CHOICES ROWS
  relay_lists check PATTERN bytes|tokens plain|numbered INPUT [ROWS CHOICES]
  relay_lists explain PATTERN bytes|tokens plain|numbered INPUT
  relay_lists show FILE..
  relay_lists items PATTERN plain|numbered ITEM..
  relay_lists batch FILE
An input - is standard input, rows - are standard output.";

// Prints how the program is used.
fn usage(rt: &impl Eprint) -> Result<(), Failure> {
    eprintln!(rt; "{USAGE}")?;
    Err(Failure::Refused)
}

// The pattern files of the program.
#[derive(Drop)]
struct PatternFiles<'r, R> {
    rt: &'r R,
}

impl<R: Files + Print + AllocGlobal> Patterns for PatternFiles<'_, R> {
    fn load(&self, name: &str) -> Result<Pattern, Failure> {
        load(self.rt, name)
    }
}

// The program, by its commands.
#[derive(Drop)]
pub(crate) struct Program<'r, R> {
    pub(crate) rt: &'r R,
}

impl<R: Files + Input + Print + Eprint + AllocGlobal> Commands for Program<'_, R> {
    fn perform(&self, words: &[String]) -> Result<(), Failure> {
        let rt = self.rt;
        let [name, rest @ ..] = words else {
            return usage(rt);
        };
        match name.as_str() {
            "show" => show_files(rt, rest),
            "items" => hand_items(rt, "relay_lists", rest, &PatternFiles { rt }),
            name @ ("read" | "replay" | "check" | "explain") => list::run(rt, name, rest),
            _ => usage(rt),
        }
    }
}
