// Performs the lists of calls of a table from standard input, each on runs of its own, and prints every answer.
//
// A line is a pattern file in hexadecimal digits, `=`, and calls: a word is a piece to feed, N*WORD that word N times over as one piece,
// `>N` a pour of channel N, and `.` at the end the finish. The calls are performed over bytes, into fresh bits and plain text.
// A word and a colon before the file ask for something else:
//   tokens   over tokens, into fresh bits and numbered text; a piece is KIND:VALUE, more of them parted by commas
//   few      the feeds and the finish over bytes, into sinks that expect 0, 1, 2 items and so on, up to the one that takes all
//   small    the same into sinks that have room for 0, 1, 2 items and so on
//   cuts     one piece over bytes: whole, in each cut into two pieces, and symbol by symbol
// The sink of the last three writes a mark for each item: `<` and `>` for the branches, the symbol for a read, `.` for the end mark. In
// `few` and `small` it is paired with plain text. A line that begins with `#` is a remark.
#![tactic(auto)]

use crate::calls::print_calls;
use crate::cuts::print_cuts;
use crate::marks::Marks;
use crate::refusals::{MANY, print_refusals};
use alphabet::{Bytes, Tokens};
use anyhow::{Context, anyhow};
use console::pattern_of;
use listing::without_finish;
use sink::STOCK_BYTES;
use tables::{Performs, hex_bytes, perform_cases};
use text::Manner;

mod calls;
mod cuts;
mod marks;
mod refusals;

// One line.
fn perform_line<R: Print + AllocGlobal>(rt: &R, text: &str) -> anyhow::Result<()> {
    let (head, words) = text.split_once("=").context("a line without =")?;
    let (task, digits) = head.split_once(":").unwrap_or(("bytes", head));
    let pattern = match pattern_of(&hex_bytes(rt.alloc(), digits)?) {
        Ok(pattern) => pattern,
        Err(fault) => return Ok(println!(rt; "  {fault}")?),
    };
    let (words, finish) = without_finish(words);
    match task {
        "tokens" => print_calls(rt, &pattern, &Tokens, Manner::Numbered, words, finish),
        "few" => print_refusals(rt, &pattern, words, |n| Marks::new(n, STOCK_BYTES)),
        "small" => print_refusals(rt, &pattern, words, |n| Marks::new(MANY, n as usize)),
        "cuts" => print_cuts(rt, &pattern, words.trim().as_bytes()),
        "bytes" => print_calls(rt, &pattern, &Bytes, Manner::Plain, words, finish),
        _ => Err(anyhow!("a word before the file that asks for nothing known")),
    }
}

// The trial of readings.
#[derive(Drop)]
struct Readings<'r, R> {
    rt: &'r R,
}

impl<R: Print + AllocGlobal> Performs for Readings<'_, R> {
    fn perform(&mut self, line: &str) -> anyhow::Result<()> {
        perform_line(self.rt, line)
    }
}

fn main(rt: HostRuntime) -> anyhow::Result<()> {
    perform_cases(&rt, &mut Readings { rt: &rt })
}
