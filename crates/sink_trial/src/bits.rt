// The sink of bits.
use crate::show;
use crate::show::Case;
use alphabet::item::{END_MARK, FIRST, FIRST_READ, SECOND};
use sink::{Bits, Sink, file_bits};
use std::io;

// Bytes and their order.
fn file(rt: &HostRuntime, label: &str, items: &[u32]) -> io::Result<()> {
    let mut buffer = [0xeeu8; 4];
    let answer = file_bits(items, &mut buffer);
    show::written(rt, label, answer, &buffer)
}

fn order(rt: &HostRuntime) -> io::Result<()> {
    println!(rt; "Bits go into a byte from the highest down.")?;
    file(
        rt,
        "0 1 1 and the end",
        &[0, 99, 1, 100, 101, 102, 1, END_MARK],
    )?;
    file(
        rt,
        "10000001 1 and the end",
        &[1, 0, 0, 0, 0, 0, 0, 1, 1, END_MARK],
    )?;
    file(
        rt,
        "01010101 and the end",
        &[0, 1, 0, 1, 0, 1, 0, 1, END_MARK],
    )?;
    file(rt, "the end alone", &[END_MARK])?;
    file(rt, "111 and no end", &[1, 1, 1])
}

pub(crate) fn run(rt: &HostRuntime) -> io::Result<()> {
    order(rt)?;
    // What is expected.
    let mut sink = Bits::new();
    show::takes(
        rt,
        &mut sink,
        &[
            Case::once("above the end mark", END_MARK + 1),
            Case::once("a read", FIRST_READ),
            Case::once("the end mark", END_MARK),
            Case::once("the end mark again", END_MARK),
            Case::once("a branch after it", FIRST),
        ],
    )?;
    // 4,096 bytes are 32,768 bits.
    let mut sink = Bits::new();
    show::takes(
        rt,
        &mut sink,
        &[
            Case::times("32,760 bits", SECOND, 32_760),
            Case::times("8 more", SECOND, 8),
            Case::times("7 more", SECOND, 7),
            Case::once("the eighth", FIRST),
            Case::once("the end mark", END_MARK),
            Case::once("a read", FIRST_READ),
            Case::once("above the end mark", END_MARK + 1),
        ],
    )?;
    let mut buffer = [0xeeu8; 4097];
    let answer = sink.pour(0, &mut buffer);
    show::written(rt, "channel 0", answer, &buffer[4094..4097])?;
    show::takes(rt, &mut sink, &[Case::once("the end mark", END_MARK)])?;
    show::pour(rt, "the filled byte", &mut sink, 0, &mut buffer[0..1])
}
