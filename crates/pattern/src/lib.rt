// Patterns: expressions with output as tables of points, and the reader of pattern files.
#![tactic(auto)]

pub mod laws;
pub mod limits;
pub mod number;
pub mod operation;
pub mod pattern;
pub mod point;
pub mod step;

pub use pattern::Pattern;
pub use point::Point;
pub use step::Step;
