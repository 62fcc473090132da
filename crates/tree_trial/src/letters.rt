use tree::limits::{CAPACITY, FIRST_SLOT};
use tree::paths::PathTree;
use tree::refusal::Refusal;

// A first branch, a second branch, and the letter a read. A tree holds numbers, whatever they mean.
const FIRST: u32 = 0;

const SECOND: u32 = 1;

const READ_A: u32 = 99;

// Why a tree did not grow as it should.
#[derive(Clone, Copy, Debug)]
pub(crate) enum Failure {
    Refused(Refusal),
    BeganAlike,
}

impl From<Refusal> for Failure {
    fn from(refusal: Refusal) -> Failure {
        Failure::Refused(refusal)
    }
}

// The two walks of one side: before another a, and past the star.
#[derive(Clone, Copy)]
struct Side {
    again: u16,
    past: u16,
}

// Both ways from a star, whose path `at` holds.
fn star(tree: &mut PathTree, at: u16) -> Result<Side, Refusal> {
    let again = tree.add(at, FIRST)?;
    let past = tree.add(at, SECOND)?;
    tree.release(at)?;
    Ok(Side { again, past })
}

// The side reads the letter a.
fn read(tree: &mut PathTree, side: Side) -> Result<Side, Refusal> {
    tree.release(side.past)?;
    let at = tree.add(side.again, READ_A)?;
    tree.release(side.again)?;
    star(tree, at)
}

// What the tree of 'a star b or a star c' counts after that many letters a.
pub(crate) fn grow(letters: u32) -> Result<usize, Failure> {
    let mut tree = PathTree::new();
    let one = tree.add(FIRST_SLOT, FIRST)?;
    let mut left = star(&mut tree, one)?;
    let other = tree.add(FIRST_SLOT, SECOND)?;
    let mut right = star(&mut tree, other)?;
    tree.release(FIRST_SLOT)?;
    for _ in 0..letters {
        left = read(&mut tree, left)?;
        right = read(&mut tree, right)?;
    }
    match tree.take_first() {
        Some(_) => Err(Failure::BeganAlike),
        None => Ok(tree.count()),
    }
}

// What a path of as many items as there is room for counts, and what adding one more answers.
pub(crate) fn fill() -> Result<(usize, Result<u16, Refusal>), Refusal> {
    let mut tree = PathTree::new();
    let mut at = FIRST_SLOT;
    for _ in 0..CAPACITY {
        at = tree.add(at, READ_A)?;
    }
    let one_more = tree.add(at, READ_A);
    Ok((tree.count(), one_more))
}
