// The sink of text.
use crate::show;
use crate::show::Case;
use alphabet::item::{END_MARK, FIRST, FIRST_READ};
use fault::Fault;
use pattern::Pattern;
use sink::Sink;
use std::io;
use text::{Manner, Text, write_text};

// The star of a read of any byte that keeps its symbol.
const KEPT: [u8; 4] = [2, 0x80, 2, 6];

// A digit that is kept, a comma that is dropped, the text ';' and a digit that is kept.
const ROW: [u8; 14] = [2, 0x81, 2, 1, 0x2c, 4, 3, 1, 0x3b, 4, 2, 0x81, 2, 4];

// What stands before a text of 1,024 bytes in a pattern file, and what makes with it the star of the text and a read
// that drops its symbol, or one that keeps it.
const BEFORE: [u8; 3] = [3, 0x80, 8];

const DROPPED: [u8; 5] = [1, 0x80, 2, 4, 6];

const LONG_KEPT: [u8; 5] = [2, 0x80, 2, 4, 6];

fn loaded(file: &[u8]) -> Pattern {
    let mut pattern = Pattern::new();
    let _ = pattern.load(file);
    pattern
}

// The pattern with the text of 1,024 bytes.
fn long(after: &[u8; 5]) -> Pattern {
    let mut file = [0x78; 1032];
    file[0..3].copy_from_slice(&BEFORE);
    file[1027..1032].copy_from_slice(after);
    loaded(&file)
}

// The numbers, each after the first branch of the star.
fn numbers(rt: &HostRuntime, manner: Manner, numbers: &[u32]) -> io::Result<()> {
    let pattern = loaded(&KEPT);
    for &n in numbers {
        let mut buffer = [0xeeu8; 4];
        let answer = write_text(
            &pattern,
            manner,
            &[FIRST, FIRST_READ.wrapping_add(n)],
            &mut buffer,
        );
        print!(rt; "{n}, ")?;
        show::written(rt, "written", answer, &buffer)?;
    }
    Ok(())
}

// Rounds of a star whose text has 1,024 bytes.
fn rounds(sink: &mut Text, times: u32) -> Result<(), Fault> {
    for _ in 0..times {
        sink.take(FIRST)?;
        sink.take(FIRST_READ + 0x79)?;
    }
    Ok(())
}

// As many rounds as fit, one more, and what is poured then.
fn nearly_full(rt: &HostRuntime, after: &[u8; 5], fit: u32) -> io::Result<()> {
    let pattern = long(after);
    let mut sink = Text::new(&pattern, Manner::Plain);
    show::answer(rt, "rounds that fit", rounds(&mut sink, fit))?;
    show::answer(rt, "one more", rounds(&mut sink, 1))?;
    show::answer(rt, "a symbol above 255", sink.would(FIRST_READ + 256))?;
    let mut buffer = [0xeeu8; 4097];
    let answer = sink.pour(0, &mut buffer);
    show::written(rt, "channel 0", answer, &buffer[3072..3076])?;
    show::answer(rt, "its read again", sink.take(FIRST_READ))
}

pub(crate) fn run(rt: &HostRuntime) -> io::Result<()> {
    println!(rt; "Numbers in groups of seven bits.")?;
    numbers(
        rt,
        Manner::Numbered,
        &[0, 127, 128, 10_235, 16_383, 16_384, 65_535, 65_536],
    )?;
    println!(rt; "Numbers as one byte.")?;
    numbers(rt, Manner::Plain, &[0, 255, 256])?;
    println!(rt; "A text of 1,024 bytes.")?;
    nearly_full(rt, &DROPPED, 4)?;
    nearly_full(rt, &LONG_KEPT, 3)?;
    println!(rt; "A text is written when it is passed.")?;
    // A row up to its comma, and the rest of it.
    let pattern = loaded(&ROW);
    let mut sink = Text::new(&pattern, Manner::Plain);
    show::takes(
        rt,
        &mut sink,
        &[
            Case::once("a branch", FIRST),
            Case::once("5", 55),
            Case::once("a comma", 46),
            Case::once("the end too early", END_MARK),
        ],
    )?;
    show::pour(rt, "after the comma", &mut sink, 0, &mut [0xee; 4])?;
    show::takes(
        rt,
        &mut sink,
        &[
            Case::once("7", 57),
            Case::once("a read at the end", 57),
            Case::once("the end mark", END_MARK),
            Case::once("the end mark again", END_MARK),
        ],
    )?;
    show::pour(rt, "at the end", &mut sink, 0, &mut [0xee; 4])
}
