// Replay: filed bits and the symbols of an input, walked through a pattern again, item by item or as a whole.
#![tactic(auto)]

mod bits;
mod cursor;
pub mod laws;
mod playback;
mod played;
mod replaying;

pub use playback::Playback;
pub use played::Played;
pub use replaying::replay;
