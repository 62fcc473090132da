// How many items a tree has room for. The specs have the same numbers in Limits, so that an edit of one alone is refused.

// What a tree may count between two steps of a run.
pub const COUNTABLE: usize = 2048;

// What one step of a run adds at most before it frees: branch items and read items.
pub const STEP_BRANCHES: usize = 512;

pub const STEP_READS: usize = 256;

// All of these stand in the tree at once.
pub const CAPACITY: usize = COUNTABLE + STEP_BRANCHES + STEP_READS;

// Slot 0, which is never used, and the root's.
pub(crate) const RESERVED: usize = 2;

pub(crate) const SLOTS: usize = CAPACITY + RESERVED;

// The slot that holds the empty path of a new tree.
pub const FIRST_SLOT: u16 = 1;
