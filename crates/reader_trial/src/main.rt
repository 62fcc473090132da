// Reads inputs by patterns from standard input, and tells which items came off after which symbol, and how each reading ended.
//
// A line is: the bytes of a pattern file in hexadecimal digits, `=`, and the words of the input; `N*` before a word stands for it N times.
#![tactic(auto)]

use alphabet::Bytes;
use anyhow::Context;
use console::pattern_of;
use pattern::Pattern;
use reader::{Buffer, Reader, Stop};
use std::alloc::Global;
use std::io;
use tables::{hex_bytes, push_word};

// The items that came off, if any.
fn show(rt: &impl Print, after: usize, out: &Buffer) -> io::Result<()> {
    if out.items().is_empty() {
        return Ok(());
    }
    print!(rt; "  after {after}:")?;
    for item in out.items() {
        print!(rt; " {item}")?;
    }
    println!(rt; "")
}

// The bytes of the words of an input.
fn input_of(heap: Global, words: &str) -> anyhow::Result<Vec<u8>> {
    let mut bytes = Vec::new(heap);
    for word in words.split_whitespace() {
        push_word(&mut bytes, word)?;
    }
    Ok(bytes)
}

// Reads an input to its end or to a refused symbol.
fn read(rt: &impl Print, pattern: &Pattern, input: &[u8]) -> io::Result<()> {
    let mut out = Buffer::new();
    let mut reader = Reader::open(pattern, &Bytes, &mut out);
    show(rt, 0, &out)?;
    for (before, symbol) in input.iter().enumerate() {
        match reader.read(symbol, &mut out) {
            Ok(()) => show(rt, before + 1, &out)?,
            Err(Stop::Dead) => return println!(rt; "  dead after {before}"),
            Err(Stop::TreeFull) => return println!(rt; "  tree full after {before}"),
        }
    }
    let live = reader.live_points().count();
    println!(rt; "  {live} live walks")?;
    if reader.live_points().contains(pattern.count()) {
        println!(rt; "  accepted so far")
    } else {
        println!(rt; "  not accepted so far")
    }
}

fn case<R: Print + AllocGlobal>(rt: &R, line: &str) -> anyhow::Result<()> {
    let heap = rt.alloc();
    let (digits, words) = line.split_once("=").context("a line without =")?;
    match pattern_of(&hex_bytes(heap, digits)?) {
        Ok(pattern) => read(rt, &pattern, &input_of(heap, words)?)?,
        Err(fault) => println!(rt; "  refused: {fault}")?,
    }
    Ok(())
}

// Unlike the other trials, it prints no remarks.
fn run<R: Input + Print + AllocGlobal>(rt: &R) -> anyhow::Result<()> {
    for line in rt.lines(rt.alloc()) {
        let line = line?;
        if line.as_str().starts_with("#") || line.is_empty() {
            continue;
        }
        println!(rt; "{line}")?;
        case(rt, line.as_str())?;
    }
    Ok(())
}

fn main(rt: HostRuntime) -> anyhow::Result<()> {
    run(&rt)
}
