// Performs the lists of calls of a table from standard input, each on a run of its own into fresh bits and text, and prints every answer.
//
// A line is a pattern file in hexadecimal digits, `=`, and calls: a word is a piece to feed, N*WORD that word N times over as one piece,
// `>N` a pour of channel N, and `.` at the end the finish.
#![tactic(auto)]

use alphabet::Bytes;
use anyhow::Context;
use console::{bits_and_text, pattern_of};
use listing::print_run;
use run::Call;
use tables::{Performs, hex_bytes, perform_cases, word_bytes};
use text::Manner;

// The call of a word; `piece` are the bytes to feed.
fn call_of<'p>(word: &str, piece: &'p [u8]) -> anyhow::Result<Call<'p, u8>> {
    match word.strip_prefix(">") {
        Some(channel) => Ok(Call::Pour(channel.parse::<u32>()?)),
        None => Ok(Call::Feed(piece)),
    }
}

// One line.
fn perform_line<R: Print + AllocGlobal>(rt: &R, line: &str) -> anyhow::Result<()> {
    let heap = rt.alloc();
    let (digits, words) = line.split_once("=").context("a line without =")?;
    let pattern = match pattern_of(&hex_bytes(heap, digits)?) {
        Ok(pattern) => pattern,
        Err(fault) => return Ok(println!(rt; "  {fault}")?),
    };
    let pieces: Vec<Vec<u8>> = words
        .split_whitespace()
        .filter(|word| *word != ".")
        .map(|word| word_bytes(heap, word))
        .try_collect(heap)?;
    let calls: Vec<Call<'_, u8>> = words
        .split_whitespace()
        .zip(pieces.iter())
        .map(|(word, piece)| call_of(word, piece.as_slice()))
        .try_collect(heap)?;
    let finish = words.split_whitespace().any(|word| word == ".");
    let mut pair = bits_and_text(&pattern, Manner::Plain);
    Ok(print_run(rt, &pattern, &Bytes, &mut pair, &calls, finish)?)
}

// The trial of runs.
#[derive(Drop)]
struct Runs<'r, R> {
    rt: &'r R,
}

impl<R: Print + AllocGlobal> Performs for Runs<'_, R> {
    fn perform(&mut self, line: &str) -> anyhow::Result<()> {
        perform_line(self.rt, line)
    }
}

fn main(rt: HostRuntime) -> anyhow::Result<()> {
    perform_cases(&rt, &mut Runs { rt: &rt })
}
