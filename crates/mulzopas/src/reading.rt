// An input read by a pattern, as it arrives.
use crate::command::load;
use crate::delivering::{deliver_bits, deliver_rows};
use alphabet::Bytes;
use anyhow::anyhow;
use console::{Failure, Poured, bits_and_text, told};
use fault::Fault;
use pattern::Pattern;
use run::{Finished, Run};
use sink::Sink;
use std::fs;
use std::io::Read;
use std::rt::Files;
use text::Manner;

const USAGE: &str = "usage: mulzopas read PATTERN plain|numbered INPUT ROWS BITS";

// How many bytes of an input are fed at once. The stocks are poured after each piece.
const PIECE: usize = 256;

// Feeds the input piece by piece, up to a refusal, and pours after each. The finish answers the refusal again.
// The loop stands here and in relay_lists, which feeds chunks of symbols of either alphabet, tells less of each, and writes as it goes.
fn feed_all<S: Sink, I: Read>(
    rt: &impl Print,
    run: &mut Run<'_, Bytes>,
    sink: &mut S,
    input: &mut I,
    poured: &mut Poured,
) -> anyhow::Result<()> {
    let mut buffer = [0u8; PIECE];
    // Nothing bounds an input: this is the language's loop to its end.
    for _ in 0..u64::MAX {
        let count = input.read(&mut buffer)?;
        if count == 0 {
            break;
        }
        let answer = run.feed(sink, &buffer[..count]);
        poured.pour(sink)?;
        let Ok(items) = answer else {
            break;
        };
        let live = run.live_walks();
        println!(rt; "fed {count} symbols: {items} items handed over, {live} live walks")?;
    }
    Ok(())
}

// Opens a run, feeds the input, finishes, and pours what is left.
fn read<I: Read>(
    rt: &impl Print,
    pattern: &Pattern,
    manner: Manner,
    input: &mut I,
    poured: &mut Poured,
) -> anyhow::Result<Result<Finished, Fault>> {
    let mut pair = bits_and_text(pattern, manner);
    let (mut run, opened) = Run::open(pattern, &Bytes, &mut pair);
    let live = run.live_walks();
    println!(rt; "opened: {opened} items handed over, {live} live walks")?;
    feed_all(rt, &mut run, &mut pair, input, poured)?;
    let answer = run.finish(&mut pair);
    poured.pour(&mut pair)?;
    Ok(answer)
}

// The command: a pattern file, a manner, an input (- is standard input), and where rows and bits go (- prints them).
pub(crate) fn run<R: Files + Input + Print + AllocGlobal>(
    rt: &R,
    words: &[String],
) -> Result<(), Failure> {
    let [name, manner, input, rows, bits] = words else {
        return Err(anyhow!("{USAGE}").into());
    };
    let manner = manner.as_str().parse::<Manner>()?;
    let pattern = load(rt, name.as_str())?;
    let mut poured = Poured::new(rt.alloc())?;
    let answer = match input.as_str() {
        "-" => read(rt, &pattern, manner, &mut rt.reader(), &mut poured)?,
        name => read(rt, &pattern, manner, &mut fs::open(rt, name)?, &mut poured)?,
    };
    deliver_bits(rt, bits.as_str(), &poured.bits)?;
    deliver_rows(rt, rows.as_str(), &poured.text)?;
    let finished = told(rt, answer)?;
    let (items, symbols) = (finished.items, finished.symbols);
    println!(rt; "finished: {items} items, {symbols} symbols")?;
    Ok(())
}
