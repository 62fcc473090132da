// Replays the cases of a table from standard input, and compares each outcome with what the table expects.
//
// A line is: what is expected, `=`, and the sink, the pattern file, the filed bits and the symbols, parted by `|`.
// Expected is `ok ITEMS`, or `NUMBER PLACE` of a refusal. The sink is `all`, a pair of bits and text, or a number: it takes so many items.
// Files, bits and symbols are pairs of hexadecimal digits.
#![tactic(auto)]

use alphabet::Bytes;
use anyhow::bail;
use console::{bits_and_text, pattern_of};
use few::Few;
use replay::replay;
use std::alloc::Global;
use tables::{Outcomes, compare_cases, fault_words, hex_bytes};
use text::Manner;

mod few;

// The outcome of a line's replay, as the table writes it.
fn outcome(heap: Global, text: &str) -> anyhow::Result<String> {
    let mut parts = text.split("|");
    let (Some(sink), Some(file), Some(bits), Some(symbols)) = (
        parts.next(),
        parts.next(),
        parts.next(),
        parts.next(),
    ) else {
        bail!("a line without four parts");
    };
    let Ok(pattern) = pattern_of(&hex_bytes(heap, file)?) else {
        bail!("a pattern that is refused");
    };
    let bits = hex_bytes(heap, bits)?;
    let symbols = hex_bytes(heap, symbols)?;
    let answer = match sink.trim() {
        "all" => {
            let mut pair = bits_and_text(&pattern, Manner::Plain);
            replay(&pattern, &Bytes, &bits, &symbols, &mut pair)
        }
        count => {
            let mut few = Few::new(count.parse::<u32>()?);
            replay(&pattern, &Bytes, &bits, &symbols, &mut few)
        }
    };
    Ok(match answer {
        Ok(items) => format!(in heap; "ok {items}")?,
        Err(fault) => fault_words(heap, fault)?,
    })
}

// The trial of replays.
#[derive(Drop)]
struct Replays {
    heap: Global,
}

impl Outcomes for Replays {
    fn outcome(&mut self, words: &str) -> anyhow::Result<String> {
        outcome(self.heap, words)
    }
}

fn main(rt: HostRuntime) -> anyhow::Result<()> {
    compare_cases(&rt, "replays", &mut Replays { heap: rt.alloc() })
}
