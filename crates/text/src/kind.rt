// What a point is to the sink of text.
ghost use Rattle.std.specs.Prelude.{◌≡◌};

use pattern::Point;

// A read that keeps its symbol or drops it, a text, a choice or star, or the end point.
// A kind of its own beside the pattern's, by a rule of the project: the sink of text matches its point kind together with the item.
#[derive(Clone, Copy)]
pub(crate) enum Kind {
    Read { keep: bool, next: u8 },
    Text,
    Branch { first: u8, second: u8 },
    End,
}

// The kind of a point; past the last point stands the end point.
impl From<Option<Point>> for Kind {
    ghost use Rattle.text.specs.TextMeaning.{kind_of};

    ghost from_gives = { λ point kind. kind ≡ kind_of point };

    fn from(point: Option<Point>) -> Kind {
        match point {
            Some(Point::Read { keep, next, .. }) => Kind::Read { keep, next },
            Some(Point::Text { .. }) => Kind::Text,
            Some(Point::Choice { first, second } | Point::Star { first, second }) => {
                Kind::Branch { first, second }
            }
            None => Kind::End,
        }
    }
}
