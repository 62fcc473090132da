// A pair of pairs.
use crate::show;
use crate::show::Case;
use alphabet::item::{END_MARK, SECOND};
use pattern::Pattern;
use sink::{Bits, Pair, Sink, hand_over};
use std::io;
use text::{Manner, Text};

// (a|ab)(c|bcd)d*, where each letter is a read that keeps its symbol.
const LETTERS: [u8; 24] = [
    2, 0x61, 2, 0x61, 2, 0x62, 4, 5, 2, 0x63, 2, 0x62, 2, 0x63, 4, 2, 0x64, 4, 5, 4, 2, 0x64, 6, 4,
];

// The channels: 0 and 3 are the bits, 2 and 1 the texts. The last of the four has taken a branch before.
fn channels(rt: &HostRuntime, pattern: &Pattern) -> io::Result<()> {
    let mut begun = Bits::new();
    show::takes(
        rt,
        &mut begun,
        &[Case::once("the last of the four alone", SECOND)],
    )?;
    let mut sink = Pair {
        first: Pair {
            first: Bits::new(),
            second: Text::new(pattern, Manner::Plain),
        },
        second: Pair {
            first: Text::new(pattern, Manner::Numbered),
            second: begun,
        },
    };
    let handed = hand_over(&mut sink, &[0, 202, 1, 100, 101, 102, 1, END_MARK]);
    println!(rt; "handed over: {}", handed.count)?;
    show::answer(rt, "the next", sink.take(SECOND))?;
    for channel in 0..6u32 {
        print!(rt; "channel {channel}, ")?;
        show::pour(rt, "into six bytes", &mut sink, channel, &mut [0xee; 6])?;
    }
    Ok(())
}

// One that refuses an item keeps the other from taking it.
fn neither(rt: &HostRuntime, pattern: &Pattern) -> io::Result<()> {
    let mut sink = Pair {
        first: Bits::new(),
        second: Text::new(pattern, Manner::Plain),
    };
    show::takes(
        rt,
        &mut sink,
        &[
            Case::once("a branch", SECOND),
            Case::once("a branch where the text expects a read", SECOND),
            Case::once("the end mark there", END_MARK),
            Case::once("a read", 99),
            Case::once("and another", 100),
        ],
    )?;
    // The bits alone: they have one bit, so seven more are a byte; 32,768 fill the stock, and seven begin a byte more.
    show::takes(
        rt,
        &mut sink.first,
        &[Case::times("seven more bits", SECOND, 7)],
    )?;
    show::pour(rt, "the bits", &mut sink, 0, &mut [0xee; 2])?;
    show::pour(rt, "the text", &mut sink, 1, &mut [0xee; 3])?;
    show::takes(
        rt,
        &mut sink.first,
        &[Case::times("32,775 bits", SECOND, 32_775)],
    )?;
    show::answer(rt, "full and expected", sink.would(SECOND))?;
    show::answer(
        rt,
        "full and not expected by the text",
        sink.would(END_MARK),
    )
}

pub(crate) fn run(rt: &HostRuntime) -> io::Result<()> {
    println!(rt; "A pair of pairs.")?;
    let mut pattern = Pattern::new();
    let _ = pattern.load(&LETTERS);
    channels(rt, &pattern)?;
    println!(rt; "Both or neither.")?;
    neither(rt, &pattern)
}
