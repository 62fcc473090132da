// What the programs of the kit share: how they are called, what ends a command, pattern files in readable form, and bits and text poured.
#![tactic(auto)]

mod commands;
mod failure;
mod items;
mod loading;
mod pouring;
mod quoting;
mod show;

pub use commands::{Commands, run};
pub use failure::{Failure, told};
pub use items::{Patterns, hand_items};
pub use loading::pattern_of;
pub use pouring::{BITS, Poured, TEXT, bits_and_text, pour_behind};
pub use quoting::{Digits, Quoted};
pub use show::show_files;

#[cfg(test)]
mod tests;
