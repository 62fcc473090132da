// Tries the path tree against plain lists, and grows the tree of a pattern letter by letter.
#![tactic(auto)]

mod letters;
mod model;
mod random;

use std::io;

// How many calls are tried.
const TURNS: u32 = 20_000;

fn main(rt: HostRuntime) -> io::Result<()> {
    let t = random::run(rt.alloc(), TURNS)?;
    println!(rt;
        "added {}, not held {}, present {}, forked {}",
        t.added, t.not_held, t.present, t.forked
    )?;
    println!(rt;
        "released {}, taken {}, largest {}, wrong {}",
        t.released, t.taken, t.largest, t.wrong
    )?;
    let filled = letters::fill();
    println!(rt; "filled: {filled:?}")?;
    for n in [0, 1, 2, 510, 511] {
        let grown = letters::grow(n);
        println!(rt; "{n} letters: {grown:?}")?;
    }
    Ok(())
}
