// What an accepted finish answers.

// The items handed over in all, the end mark with them, and the symbols read.
#[derive(Clone, Copy, PartialEq, Eq, Debug)]
pub struct Finished {
    pub items: u64,
    pub symbols: u32,
}
