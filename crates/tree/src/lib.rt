// A tree of paths: lists of items that share their beginnings.
// Each path is held under the number of its last entry's slot.
#![tactic(auto)]

pub mod limits;
pub mod paths;
pub mod refusal;
mod table;
