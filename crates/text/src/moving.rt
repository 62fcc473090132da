// What an item does.
ghost use Rattle.text.specs.Moving.{Moved};

use crate::kind::Kind;
use crate::manner::Manner;
use crate::tail::{Tail, tail_of};
use alphabet::item::{END_MARK, FIRST, FIRST_READ, LAST_READ, SECOND};

// Where an expected item leads, and what it adds besides the texts. No next point is the end.
#[derive(Drop)]
pub(crate) struct Move {
    pub next: Option<u8>,
    pub tail: Tail,
}

// What the item does at a point of this kind; nothing where it is not expected.
pub(crate) fn move_at(manner: Manner, kind: Kind, item: u32) -> Option<Move>
    ensures { Moved manner kind item result }
{
    let mut tail = Tail::new();
    let next = match (kind, item) {
        (Kind::Branch { first, .. }, i) if i == FIRST => Some(first),
        (Kind::Branch { second, .. }, i) if i == SECOND => Some(second),
        (Kind::Read { keep: false, next }, i) if i >= FIRST_READ && i <= LAST_READ => Some(next),
        (Kind::Read { keep: true, next }, i) if i >= FIRST_READ && i <= LAST_READ => {
            tail = tail_of(manner, i - FIRST_READ)?;
            Some(next)
        }
        (Kind::End, i) if i == END_MARK => None,
        _ => return None,
    };
    Some(Move { next, tail })
}
