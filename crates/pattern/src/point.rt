// The points of a pattern.
ghost use Rattle.std.specs.Prelude.{◌≡◌, map};
ghost use Rattle.pattern.specs.declared.point.Point.TheVariants.{Choice};
ghost use Rattle.pattern.specs.Points.{known as led, fill, open_end};

// In the place of a follower that is not known yet. While one is missing there are fewer points than that.
// No option: a finished pattern lacks no follower, and would need points of another type than its draft.
pub(crate) const OPEN: u8 = 255;

// A point: one read, text, choice or star of an expression, with the numbers of the points that it leads to.
#[derive(Clone, Copy, Debug, PartialEq)]
pub enum Point {
    // reads a symbol of the class, and keeps it in the text or drops it
    Read { keep: bool, class: u16, next: u8 },
    // writes bytes: `len` of the pattern's text bytes from `start` on
    Text { start: u16, len: u16, next: u8 },
    Choice { first: u8, second: u8 },
    // the first branch goes round, the second goes on
    Star { first: u8, second: u8 },
}

// What stands in the unused places of a table: nothing of it is known.
impl Default for Point {
    ghost is_default = { λ p. p ≡ Choice open_end open_end };

    fn default() -> Point {
        Point::Choice {
            first: OPEN,
            second: OPEN,
        }
    }
}

// `next` in the place of OPEN.
pub(crate) fn known(to: u8, next: u8) -> u8
    ensures { result ≡ led next to }
{
    if to == OPEN { next } else { to }
}

impl Point {
    // The point with `next` in the place of OPEN.
    pub(crate) fn filled(self, next: u8) -> Point
        ensures { result ≡ fill next self }
    {
        match self {
            Point::Read {
                keep,
                class,
                next: to,
            } => Point::Read {
                keep,
                class,
                next: known(to, next),
            },
            Point::Text {
                start,
                len,
                next: to,
            } => Point::Text {
                start,
                len,
                next: known(to, next),
            },
            Point::Choice { first, second } => Point::Choice {
                first: known(first, next),
                second: known(second, next),
            },
            Point::Star { first, second } => Point::Star {
                first: known(first, next),
                second: known(second, next),
            },
        }
    }
}

// Puts `next` in the place of OPEN in each point.
pub(crate) fn fill_all(points: &mut [Point], next: u8)
    ensures { points.new ≡ map (fill next) points.old }
{
    for p in points.iter_mut() {
        *p = p.filled(next);
    }
}
