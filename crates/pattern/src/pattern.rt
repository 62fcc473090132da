// A pattern: the points and the text bytes of an expression.
ghost use Rattle.std.specs.Prelude.{◌≤◌, length, take};
ghost use Rattle.pattern.specs.Expressions.{Expr};
ghost use Rattle.pattern.specs.Points.{ComesFrom};

use crate::limits::{POINTS, TEXT_BYTES};
use crate::point::Point;

mod calls;
mod draft;
mod load;

// Its lists are arrays with a length, since a pattern is Copy, which a vector of fixed capacity is not.
#[derive(Clone, Copy)]
pub struct Pattern {
    points: [Point; POINTS],
    count: u8,
    text: [u8; TEXT_BYTES],
    used: u16,
    entry: u8,
    ghost inside: { count ≤ length points },
    ghost little: { used ≤ length text },
    // it comes from an expression within the limits
    ghost made: { ∥ ((e : Expr) × ComesFrom (take count points) (take used text) entry e) ∥₁ },
}
