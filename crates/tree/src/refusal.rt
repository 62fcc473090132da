// Why a call on a tree is refused. The tree is then as it was.
#[derive(Clone, Copy, PartialEq, Eq, Debug)]
pub enum Refusal {
    // The slot asked for is not held.
    NotHeld,
    // No entry is free.
    Full,
    // The path is there already: held, or as the beginning of a held path.
    Present,
    // Two held paths part behind this one already, and a path parts in two ways at most.
    Forked,
}
