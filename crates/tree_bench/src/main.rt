// Times the path tree: standard output says what was done, standard error how long it took.
#![tactic(auto)]

use std::io;
use std::time::Instant;
use tree::limits::FIRST_SLOT;
use tree::paths::PathTree;
use tree::refusal::Refusal;

// The tree takes a million items and lets as many holders go.
const ROUNDS: u32 = 250_000;

// Four items under `at`, of which three are the path of the new holder, and come off at once.
fn round(tree: &mut PathTree, at: u16, item: u32) -> Result<u16, Refusal> {
    let read = tree.add(at, item)?;
    tree.release(at)?;
    let one = tree.add(read, 0)?;
    let two = tree.add(read, 1)?;
    tree.release(read)?;
    let end = tree.add(two, item)?;
    tree.release(two)?;
    tree.release(one)?;
    for _ in 0..3 {
        tree.take_first();
    }
    Ok(end)
}

fn rounds(tree: &mut PathTree) -> Result<usize, Refusal> {
    let mut at = FIRST_SLOT;
    for n in 0..ROUNDS {
        at = round(tree, at, n)?;
    }
    Ok(tree.count())
}

fn main(rt: HostRuntime) -> io::Result<()> {
    let start = Instant::now(&rt)?;
    let end = rounds(&mut PathTree::new());
    let time = start.elapsed(&rt)?;
    println!(rt; "{ROUNDS} rounds of four adds, four releases and three take-offs: {end:?}")?;
    let millis = time.as_millis();
    eprintln!(rt; "{millis} ms")
}
