// A point as a walk sees it.

// What a walk may do at a point: read a symbol of a class and go on, pass freely, take one of two branches, or end.
#[derive(Clone, Copy, Debug, PartialEq)]
pub enum Step {
    Read { class: u16, next: u8 },
    Pass { next: u8 },
    Fork { first: u8, second: u8 },
    End,
}
