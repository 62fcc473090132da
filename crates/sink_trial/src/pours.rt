// Pouring into buffers of several lengths.
use crate::show;
use alphabet::item::END_MARK;
use sink::{Bits, hand_over};
use std::io;

// A code of two bytes of bits.
const CODE: [u32; 11] = [0, 1, 0, 1, 1, 0, 1, 0, 1, 1, END_MARK];

pub(crate) fn run(rt: &HostRuntime) -> io::Result<()> {
    println!(rt; "A stock of two bytes.")?;
    let mut sink = Bits::new();
    let handed = hand_over(&mut sink, &CODE);
    println!(rt; "handed over: {}", handed.count)?;
    let handed = hand_over(&mut sink, &CODE);
    show::answer(rt, "once more", handed.answer)?;
    show::pour(rt, "no such channel", &mut sink, 1, &mut [])?;
    show::pour(rt, "into no byte", &mut sink, 0, &mut [])?;
    show::pour(rt, "into one byte", &mut sink, 0, &mut [0xee])?;
    show::pour(rt, "into two", &mut sink, 0, &mut [0xee, 0xee])?;
    show::pour(rt, "nothing into none", &mut sink, 0, &mut [])
}
