// Filed bits read again.
use crate::command::load;
use crate::delivering::{deliver_rows, print_bits};
use alphabet::Bytes;
use anyhow::anyhow;
use console::{Failure, Poured, bits_and_text, told};
use replay::replay;
use std::fs;
use std::rt::Files;
use text::Manner;

const USAGE: &str = "usage: mulzopas replay PATTERN plain|numbered BITS INPUT ROWS";

// The command: a pattern file, a manner, a file of bits, a file of symbols, and where the rows go (- prints them).
pub(crate) fn run<R: Files + Print + AllocGlobal>(rt: &R, words: &[String]) -> Result<(), Failure> {
    let [name, manner, bits, input, rows] = words else {
        return Err(anyhow!("{USAGE}").into());
    };
    let manner = manner.as_str().parse::<Manner>()?;
    let pattern = load(rt, name.as_str())?;
    let filed = fs::read(rt, bits.as_str())?;
    let symbols = fs::read(rt, input.as_str())?;
    let mut poured = Poured::new(rt.alloc())?;
    let mut pair = bits_and_text(&pattern, manner);
    let answer = replay(&pattern, &Bytes, &filed, &symbols, &mut pair);
    poured.pour(&mut pair)?;
    let done = match told(rt, answer) {
        Err(Failure::Other(error)) => return Err(Failure::Other(error)),
        done => done,
    };
    if let Ok(items) = &done {
        let (symbols, bytes) = (symbols.len(), poured.text.len());
        println!(rt; "replayed {items} items, {symbols} symbols: {bytes} bytes of rows")?;
    }
    print_bits(rt, &poured.bits)?;
    deliver_rows(rt, rows.as_str(), &poured.text)?;
    done?;
    Ok(())
}
