// What a pattern tells.
ghost use Rattle.std.specs.Prelude.{◌≡◌, ◌≤◌, length};
ghost use Rattle.std.specs.List.{slice_get};
ghost use Rattle.pattern.specs.Expressions.{empty};
ghost use Rattle.pattern.specs.Points.{step_at};
ghost use Rattle.pattern.specs.Patterns.{Is, points_of, text_of, entry_of, bytes_at, LeadsIf};

use super::Pattern;
use crate::limits::{POINTS, TEXT_BYTES};
use crate::point::Point;
use crate::step::Step;

impl Pattern {
    // The pattern of the empty expression.
    pub fn new() -> Pattern
        ensures { Is result empty }
    {
        Pattern {
            points: [Point::default(); POINTS],
            count: 0,
            text: [0; TEXT_BYTES],
            used: 0,
            entry: 0,
        }
    }

    // How many points there are besides the end point, which has this number.
    pub fn count(&self) -> u8
        ensures { result ≡ length (points_of self.now) }
    {
        self.count
    }

    // How many text bytes there are.
    pub fn text_count(&self) -> u16
        ensures { result ≡ length (text_of self.now) }
    {
        self.used
    }

    // The number of the point that is entered first: a point or the end.
    pub fn entry(&self) -> u8
        ensures value { result ≡ entry_of self.now }
        ensures within { result ≤ length (points_of self.now) }
    {
        self.entry
    }

    // The point of this number; nothing for the end point and past it.
    // Its followers and branches are points or the end, and a text goes on to a larger number.
    pub fn point(&self, at: u8) -> Option<Point>
        ensures value { result ≡ slice_get (points_of self.now) at }
        ensures leads { LeadsIf (length (points_of self.now)) at result }
    {
        if at < self.count {
            Some(self.points[at as usize])
        } else {
            None
        }
    }

    // What the point of this number is to a walk.
    pub fn step(&self, at: u8) -> Step
        ensures { result ≡ step_at (points_of self.now) at }
    {
        match self.point(at) {
            Some(Point::Read { class, next, .. }) => Step::Read { class, next },
            Some(Point::Text { next, .. }) => Step::Pass { next },
            Some(Point::Choice { first, second }) => Step::Fork { first, second },
            Some(Point::Star { first, second }) => Step::Fork { first, second },
            None => Step::End,
        }
    }

    // The bytes of the text of this number; none where another point has it.
    pub fn text(&self, at: u8) -> &[u8]
        ensures { result.now ≡ bytes_at (text_of self.now) (slice_get (points_of self.now) at) }
    {
        let Some(Point::Text { start, len, .. }) = self.point(at) else {
            return &[];
        };
        let start = usize::from(start);
        let end = start + usize::from(len);
        &self.text[start..end]
    }
}
