// What the cases print.
use fault::Fault;
use sink::Sink;
use std::io;

// An item to take some times over.
#[derive(Clone, Copy)]
pub(crate) struct Case {
    label: &'static str,
    item: u32,
    times: u32,
}

impl Case {
    // One item, once.
    pub(crate) fn once(label: &'static str, item: u32) -> Case {
        Case::times(label, item, 1)
    }

    pub(crate) fn times(label: &'static str, item: u32, times: u32) -> Case {
        Case { label, item, times }
    }
}

// Takes an item some times over, up to the first refusal.
pub(crate) fn repeat<S: Sink>(sink: &mut S, item: u32, times: u32) -> Result<(), Fault> {
    for _ in 0..times {
        sink.take(item)?;
    }
    Ok(())
}

// Whether the items were taken, or why not.
pub(crate) fn answer(rt: &HostRuntime, label: &str, answer: Result<(), Fault>) -> io::Result<()> {
    match answer {
        Ok(()) => println!(rt; "{label}: taken"),
        Err(fault) => println!(rt; "{label}: {fault}"),
    }
}

// Takes the items of each case.
pub(crate) fn takes<S: Sink>(rt: &HostRuntime, sink: &mut S, cases: &[Case]) -> io::Result<()> {
    for case in cases {
        answer(rt, case.label, repeat(sink, case.item, case.times))?;
    }
    Ok(())
}

// Bytes in hexadecimal digits.
pub(crate) fn bytes(rt: &HostRuntime, bytes: &[u8]) -> io::Result<()> {
    for byte in bytes {
        print!(rt; " {byte:02x}")?;
    }
    println!(rt; "")
}

// How many bytes were written to a buffer, or why none; and a part of the buffer.
pub(crate) fn written(
    rt: &HostRuntime,
    label: &str,
    answer: Result<usize, Fault>,
    part: &[u8],
) -> io::Result<()> {
    match answer {
        Ok(count) => print!(rt; "{label}: {count} poured:")?,
        Err(fault) => print!(rt; "{label}: {fault}:")?,
    }
    bytes(rt, part)
}

// Pours a channel into a buffer, and prints the answer and all of the buffer.
pub(crate) fn pour<S: Sink>(
    rt: &HostRuntime,
    label: &str,
    sink: &mut S,
    channel: u32,
    buffer: &mut [u8],
) -> io::Result<()> {
    let answer = sink.pour(channel, buffer);
    written(rt, label, answer, buffer)
}
