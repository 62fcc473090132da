// The reading core: the live walks of the symbols read so far, in order, their codes in a tree, and what one more symbol makes of them.
#![tactic(auto)]

pub mod buffer;
pub mod reader;
mod state;
pub mod stop;

pub use buffer::Buffer;
pub use reader::Reader;
pub use stop::Stop;
