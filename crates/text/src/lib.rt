// The sink of text: what the items of a code write of a pattern's texts and of the symbols that it keeps.
#![tactic(auto)]

mod kind;
pub mod laws;
mod manner;
mod moving;
mod passing;
mod tail;
mod text;
mod writing;

pub use manner::{Manner, UnknownManner};
pub use text::Text;
pub use writing::write_text;
