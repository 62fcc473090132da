// One input cut at every point.
use crate::marks::Marks;
use alphabet::Bytes;
use listing::{SHOWN_CALLS, log_for};
use pattern::Pattern;
use run::{Answer, Call, perform};
use sink::STOCK_BYTES;
use std::alloc::{AllocError, Global};

// The items that the opening and the feeds handed over by their answers, those in all by the finish's, and the marks of all.
#[derive(Drop)]
struct Sum {
    fed: u64,
    all: u64,
    marks: String,
}

// The items that a feed handed over.
fn items_of(answer: &Answer) -> u64 {
    match answer {
        Answer::Fed(items) => items.unwrap_or(0),
        Answer::Poured(_) => 0,
    }
}

// Feeds the pieces and finishes.
fn read(heap: Global, pattern: &Pattern, pieces: &[Call<'_, u8>]) -> Result<Sum, AllocError> {
    let mut sink = Marks::new(u32::MAX, STOCK_BYTES);
    let mut log = log_for(heap, pieces.len().min(SHOWN_CALLS))?;
    let (opened, finished) = perform(pattern, &Bytes, &mut sink, pieces, &mut log, &mut [], true);
    let fed = log
        .iter()
        .fold(opened, |fed, answer| fed.saturating_add(items_of(answer)));
    let all = match finished {
        Some(Ok(all)) => all.items,
        _ => 0,
    };
    Ok(Sum {
        fed,
        all,
        marks: sink.taken(heap)?,
    })
}

// Feeds the pieces, ends the line with the sums, and tells whether they and the items are those of `whole`.
fn print_cut<R: Print + AllocGlobal>(
    rt: &R,
    pattern: &Pattern,
    pieces: &[Call<'_, u8>],
    whole: &Sum,
) -> anyhow::Result<bool> {
    let sum = read(rt.alloc(), pattern, pieces)?;
    let (fed, all) = (sum.fed, sum.all);
    println!(rt; ": {fed} items fed, {all} in all")?;
    Ok(fed == whole.fed && all == whole.all && sum.marks == whole.marks)
}

// Feeds the input whole, in each cut into two pieces, and symbol by symbol, and compares what was handed over.
pub(crate) fn print_cuts<R: Print + AllocGlobal>(
    rt: &R,
    pattern: &Pattern,
    input: &[u8],
) -> anyhow::Result<()> {
    let whole = read(rt.alloc(), pattern, &[Call::Feed(input)])?;
    let marks = &whole.marks;
    println!(rt; "  items {marks}")?;
    let mut same = true;
    for at in 0..=input.len() {
        let (front, back) = input.split_at(at);
        print!(rt; "  cut at {at}")?;
        same = print_cut(rt, pattern, &[Call::Feed(front), Call::Feed(back)], &whole)? && same;
    }
    let single: Vec<Call<'_, u8>> = input.chunks(1).map(Call::Feed).collect(rt.alloc())?;
    print!(rt; "  symbol by symbol")?;
    if print_cut(rt, pattern, &single, &whole)? && same {
        println!(rt; "  the same in all cuts")?;
    } else {
        println!(rt; "  NOT THE SAME IN ALL CUTS")?;
    }
    Ok(())
}
