// Filed readings: an input read into fresh bits and text, and what may be relied on in what was filed.
#![tactic(auto)]

mod filing;
pub mod laws;

pub use filing::{Filed, file};
