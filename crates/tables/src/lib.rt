// Tables of cases, which the trials read from standard input: a case a line, and remarks, which begin with #.
#![tactic(auto)]

mod cases;
#[cfg(test)]
mod tests;
mod words;

pub use cases::{Outcomes, Performs, compare_cases, fault_words, perform_cases};
pub use words::{hex_bytes, push_word, word_bytes};
