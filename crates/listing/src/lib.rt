// Lists of calls on a run: the words that name them, and their answers as they are printed.
#![tactic(auto)]

mod answers;
#[cfg(test)]
mod tests;
mod words;

pub use answers::{SHOWN_CALLS, log_for, print_answers, print_run};
pub use words::{Named, Step, calls_of, steps_of, without_finish};
