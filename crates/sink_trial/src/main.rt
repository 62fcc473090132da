// Puts sinks through cases whose outcomes were worked out by hand; the file stdout holds those.
#![tactic(auto)]

use std::io;

mod bits;
mod pairs;
mod pours;
mod show;
mod stocks;
mod texts;

fn main(rt: HostRuntime) -> io::Result<()> {
    stocks::run(&rt)?;
    bits::run(&rt)?;
    texts::run(&rt)?;
    pours::run(&rt)?;
    pairs::run(&rt)
}
