// Walks through the points of a pattern: which are live, what they share, and what they say of an input. The definitions stand in specs/, and the functions
// of `laws` and `cases` carry theorems as their contracts. The code that runs is that of a grammar, which is what walks go by.
#![tactic(auto)]

pub mod cases;
pub mod grammar;
pub mod laws;

pub use grammar::Grammar;
