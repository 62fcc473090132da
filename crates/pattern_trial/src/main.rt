// Loads the pattern files of a table from standard input, and compares each outcome with what the table expects.
//
// A line is: what is expected, `=`, and the file's bytes.
// Expected is `ok POINTS ENTRY TEXT`, or `NUMBER PLACE` of a refusal.
// Bytes are pairs of hexadecimal digits; `N(`, some bytes and `)` stand for those bytes N times.
#![tactic(auto)]

use console::pattern_of;
use std::alloc::{AllocError, Global};
use tables::{Outcomes, compare_cases, fault_words};

// The bytes that a line describes.
fn bytes_of(heap: Global, text: &str) -> anyhow::Result<Vec<u8>> {
    let mut bytes = Vec::new(heap);
    let mut times: usize = 1;
    let mut from: usize = 0;
    for word in text.split_whitespace() {
        if let Some(count) = word.strip_suffix("(") {
            times = count.parse::<usize>()?;
            from = bytes.len();
        } else if word == ")" {
            repeat(&mut bytes, from, times)?;
        } else {
            bytes.push(u8::from_str_radix(word, 16)?)?;
        }
    }
    Ok(bytes)
}

// What stands from `from` on, `times` times in all, with no copy of it beside.
fn repeat(bytes: &mut Vec<u8>, from: usize, times: usize) -> Result<(), AllocError> {
    let group = bytes.len().saturating_sub(from);
    let mut more = group.saturating_mul(times.saturating_sub(1));
    // Each turn adds as much as stands there, so that there are no more turns than a count has bits.
    for _ in 0..usize::BITS {
        let len = bytes.len();
        if more == 0 || from >= len {
            break;
        }
        let end = from + more.min(len - from);
        bytes.extend_from_within(from..end)?;
        more -= end - from;
    }
    Ok(())
}

// The outcome of loading a file, as the table writes it.
fn outcome(heap: Global, file: &[u8]) -> Result<String, AllocError> {
    match pattern_of(file) {
        Ok(pattern) => {
            let (points, entry, text) = (pattern.count(), pattern.entry(), pattern.text_count());
            format!(in heap; "ok {points} {entry} {text}")
        }
        Err(fault) => fault_words(heap, fault),
    }
}

// The trial of files.
#[derive(Drop)]
struct Files {
    heap: Global,
}

impl Outcomes for Files {
    // An empty line is one too.
    fn is_remark(&self, line: &str) -> bool {
        line.starts_with("#") || line.is_empty()
    }

    fn outcome(&mut self, words: &str) -> anyhow::Result<String> {
        Ok(outcome(self.heap, &bytes_of(self.heap, words)?)?)
    }
}

fn main(rt: HostRuntime) -> anyhow::Result<()> {
    compare_cases(&rt, "files", &mut Files { heap: rt.alloc() })
}
