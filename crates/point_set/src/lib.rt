// Sets of the points of a pattern.
#![tactic(auto)]

pub mod set;

pub use set::PointSet;
