// The same feeds into sinks that refuse at every item in turn.
use crate::calls::print_stock;
use crate::marks::Marks;
use alphabet::Bytes;
use console::TEXT;
use listing::{calls_of, print_run, steps_of};
use pattern::Pattern;
use run::Call;
use sink::Pair;
use text::{Manner, Text};

// More items than any line hands over.
pub(crate) const MANY: u32 = 100;

// Feeds and finishes into marks that take so many items, beside fresh text; tells whether they took the end mark.
fn print_limited<R: Print + AllocGlobal>(
    rt: &R,
    pattern: &Pattern,
    feeds: &[Call<'_, u8>],
    marks: Marks,
) -> anyhow::Result<bool> {
    let mut pair = Pair {
        first: marks,
        second: Text::new(pattern, Manner::Plain),
    };
    print_run(rt, pattern, &Bytes, &mut pair, feeds, true)?;
    let marks = pair.first.taken(rt.alloc())?;
    let count = marks.len();
    println!(rt; "  taken: {count} items \"{marks}\"")?;
    print_stock(rt, &mut pair, TEXT, "text")?;
    Ok(marks.as_str().ends_with("."))
}

// Feeds and finishes into a sink that takes no item, one that takes one, and so on up to one that takes them all. `short` makes the sink that
// takes so many: it expects no more, so that it refuses with 9, or has room for no more, so that it refuses with 10.
pub(crate) fn print_refusals<R: Print + AllocGlobal, S: Fn(u32) -> Marks>(
    rt: &R,
    pattern: &Pattern,
    words: &str,
    short: S,
) -> anyhow::Result<()>
    requires { S.IsAlwaysCallable short }
{
    let steps = steps_of::<u8>(rt.alloc(), words)?;
    let feeds = calls_of(rt.alloc(), &steps)?;
    for n in 0..MANY {
        println!(rt; " limit {n}")?;
        if print_limited(rt, pattern, &feeds, short(n))? {
            break;
        }
    }
    Ok(())
}
