// Items handed to a pair of sinks, bits and text.
use crate::failure::{Failure, told};
use crate::pouring::{Poured, bits_and_text};
use crate::quoting::{Digits, Quoted};
use anyhow::anyhow;
use pattern::Pattern;
use sink::hand_over;
use text::Manner;

// Where a program has its patterns.
pub trait Patterns {
    // The pattern of the file of this name. Its refusal is told.
    fn load(&self, name: &str) -> Result<Pattern, Failure>;
}

// Hands the items over, and prints how many were taken, the refusal if one was not, and what each channel received.
fn hand<R: Print + AllocGlobal>(
    rt: &R,
    pattern: &Pattern,
    manner: Manner,
    items: &[u32],
) -> Result<(), Failure> {
    let mut pair = bits_and_text(pattern, manner);
    let handed = hand_over(&mut pair, items);
    let (count, all) = (handed.count, items.len());
    println!(rt; "taken {count} of {all} items")?;
    let done = match told(rt, handed.answer) {
        Err(Failure::Other(error)) => return Err(Failure::Other(error)),
        done => done,
    };
    let mut poured = Poured::new(rt.alloc())?;
    poured.pour(&mut pair)?;
    println!(rt; "bits:{}", Digits(&poured.bits))?;
    println!(rt; "text: {}", Quoted(&poured.text))?;
    done
}

// The command `items` of the program of this name: a pattern file, a manner, and items as numbers.
pub fn hand_items<R: Print + AllocGlobal, P: Patterns>(
    rt: &R,
    program: &str,
    words: &[String],
    patterns: &P,
) -> Result<(), Failure> {
    let [name, manner, rest @ ..] = words else {
        return Err(anyhow!("usage: {program} items PATTERN plain|numbered ITEM..").into());
    };
    let manner = manner.as_str().parse::<Manner>()?;
    let items: Vec<u32> = rest
        .iter()
        .map(|word| word.as_str().parse::<u32>().map_err(anyhow::Error::from))
        .try_collect(rt.alloc())?;
    let pattern = patterns.load(name.as_str())?;
    hand(rt, &pattern, manner, &items)
}
