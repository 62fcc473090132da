// What was played.

// The next item of a playback: the branch taken at a choice or a star, a symbol read at a read point, or the end mark.
#[derive(Clone, Copy, PartialEq, Eq, Debug)]
pub enum Played {
    Branch { point: u8, second: bool },
    Read { point: u8 },
    End,
}
