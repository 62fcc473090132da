// A list of calls, performed on one run; every answer is printed.
use alphabet::Alphabet;
use console::{BITS, Digits, TEXT, bits_and_text, pour_behind};
use filing::{Filed, file};
use listing::{Named, SHOWN_CALLS, calls_of, log_for, print_answers, print_run, steps_of};
use pattern::Pattern;
use run::Call;
use sink::{STOCK_BYTES, Sink};
use text::Manner;

// The most bytes of a stock that are printed.
const SHOWN: usize = 16;

// Pours a channel and prints how many bytes it held, and the first of them in hexadecimal digits.
pub(crate) fn print_stock<R: Print + AllocGlobal, K: Sink>(
    rt: &R,
    sink: &mut K,
    channel: u32,
    name: &str,
) -> anyhow::Result<()> {
    let heap = rt.alloc();
    let mut bytes = Vec::new(heap);
    let mut buffer = vec![in heap; 0; STOCK_BYTES]?;
    let count = pour_behind(sink, channel, &mut buffer, &mut bytes)?;
    let shown = Digits(&bytes[..bytes.len().min(SHOWN)]);
    Ok(println!(rt; "  {name} left: {count} bytes{shown}")?)
}

// Files a reading into fresh bits and text, and prints the answers and what is left in stock.
fn print_filed<R: Print + AllocGlobal, A: Alphabet>(
    rt: &R,
    pattern: &Pattern,
    alphabet: &A,
    manner: Manner,
    calls: &[Call<'_, A::Symbol>],
) -> anyhow::Result<()> {
    let heap = rt.alloc();
    let mut log = log_for(heap, calls.len().min(SHOWN_CALLS))?;
    let mut buffer = vec![in heap; 0; STOCK_BYTES]?;
    let Filed {
        mut sinks,
        opened,
        finished,
    } = file(pattern, alphabet, manner, calls, &mut log, &mut buffer);
    print_answers(rt, opened, &log, Some(finished))?;
    print_stocks(rt, &mut sinks)
}

// Pours bits and text and prints what they held.
fn print_stocks<R: Print + AllocGlobal, K: Sink>(rt: &R, sinks: &mut K) -> anyhow::Result<()> {
    print_stock(rt, sinks, BITS, "bits")?;
    print_stock(rt, sinks, TEXT, "text")
}

// Performs the calls into fresh bits and text, and prints the answers and what is left in stock.
pub(crate) fn print_calls<R: Print + AllocGlobal, A: Alphabet>(
    rt: &R,
    pattern: &Pattern,
    alphabet: &A,
    manner: Manner,
    words: &str,
    finish: bool,
) -> anyhow::Result<()>
where
    A::Symbol: Named + Drop,
{
    let heap = rt.alloc();
    let steps = steps_of::<A::Symbol>(heap, words)?;
    let calls = calls_of(heap, &steps)?;
    if finish {
        return print_filed(rt, pattern, alphabet, manner, &calls);
    }
    let mut pair = bits_and_text(pattern, manner);
    print_run(rt, pattern, alphabet, &mut pair, &calls, finish)?;
    print_stocks(rt, &mut pair)
}
