// A pattern while its file is being read: the expressions that stand together, oldest first.
ghost use Rattle.std.specs.Prelude.{◌≡◌, ◌≤◌, List, length, take};
ghost use Rattle.pattern.specs.Expressions.{Expr};
ghost use Rattle.pattern.specs.Held.{Hold};

use super::Pattern;
use crate::limits::{POINTS, STANDING, TEXT_BYTES};
use crate::point::{OPEN, Point, fill_all, known};
use arrayvec::ArrayVec;
use fault::{Cause, Fault};

// One expression: the number of its first point, and its entry.
#[derive(Clone, Copy, Default)]
pub(crate) struct Part {
    start: usize,
    entry: u8,
}

#[derive(Drop)]
pub(crate) struct Draft {
    points: ArrayVec<Point, POINTS>,
    text: ArrayVec<u8, TEXT_BYTES>,
    parts: ArrayVec<Part, STANDING>,
    // some expressions stand in it
    ghost held: { ∥ ((es : List Expr) × Hold points.items text.items parts.items es) ∥₁ },
}

// The items at the front of an array.
fn array_of<T: Copy + Default, const N: usize>(items: &ArrayVec<T, N>) -> [T; N]
    ensures front { take (length items.now.items) result ≡ items.now.items }
    ensures inside { length items.now.items ≤ length result }
{
    let mut array = [T::default(); N];
    array[..items.len()].copy_from_slice(items.as_slice());
    array
}

impl Draft {
    ghost use Rattle.std.specs.Prelude.{ℕ, [], ◌∷◌};
    ghost use Rattle.pattern.specs.Expressions.{empty as blank, read as reading, text as texted, seq, alt, star as starred};
    ghost use Rattle.pattern.specs.Files.{limited, on_two, on_one, final};
    ghost use Rattle.pattern.specs.Drafts.{Holds, Done, Finished};

    pub(crate) fn new() -> Draft
        ensures { Holds result [] }
    {
        Draft {
            points: ArrayVec::new(),
            text: ArrayVec::new(),
            parts: ArrayVec::new(),
        }
    }

    // The empty expression.
    pub(crate) fn empty(&mut self, place: u64) -> Result<(), Fault>
        ensures { (n : ℕ) (es : List Expr) → Holds self.old es → Done (limited n (blank ∷ es)) place result self.new }
    {
        if self.parts.is_full() {
            return Err(Fault::new(Cause::PatternLimit, place));
        }
        self.parts.push(Part {
            start: self.points.len(),
            entry: OPEN,
        });
        Ok(())
    }

    // A read of a class.
    pub(crate) fn read(&mut self, place: u64, keep: bool, class: u16) -> Result<(), Fault>
        ensures { (n : ℕ) (es : List Expr) → Holds self.old es → Done (limited n (reading keep class ∷ es)) place result self.new }
    {
        if self.points.is_full() || self.parts.is_full() {
            return Err(Fault::new(Cause::PatternLimit, place));
        }
        let start = self.points.len();
        self.points.push(Point::Read {
            keep,
            class,
            next: OPEN,
        });
        self.parts.push(Part {
            start,
            entry: start as u8,
        });
        Ok(())
    }

    // A text.
    pub(crate) fn text(&mut self, place: u64, bytes: &[u8]) -> Result<(), Fault>
        ensures { (n : ℕ) (es : List Expr) → Holds self.old es → Done (limited n (texted bytes.now ∷ es)) place result self.new }
    {
        if self.points.is_full() || self.parts.is_full() {
            return Err(Fault::new(Cause::PatternLimit, place));
        }
        let begin = self.text.len();
        let Ok(()) = self.text.try_extend_from_slice(bytes) else {
            return Err(Fault::new(Cause::PatternLimit, place));
        };
        let start = self.points.len();
        self.points.push(Point::Text {
            start: begin as u16,
            len: bytes.len() as u16,
            next: OPEN,
        });
        self.parts.push(Part {
            start,
            entry: start as u8,
        });
        Ok(())
    }

    // A sequence of the last two expressions.
    pub(crate) fn sequence(&mut self, place: u64) -> Result<(), Fault>
        ensures { (n : ℕ) (es : List Expr) → Holds self.old es → Done (on_two seq n es) place result self.new }
    {
        let [.., older, later] = *self.parts.as_slice() else {
            return Err(Fault::new(Cause::Malformed, place));
        };
        fill_all(&mut self.points[older.start..later.start], later.entry);
        self.parts.pop();
        self.parts.pop();
        self.parts.push(Part {
            start: older.start,
            entry: known(older.entry, later.entry),
        });
        Ok(())
    }

    // A choice of the last two expressions.
    pub(crate) fn choice(&mut self, place: u64) -> Result<(), Fault>
        ensures { (n : ℕ) (es : List Expr) → Holds self.old es → Done (on_two alt n es) place result self.new }
    {
        let [.., older, later] = *self.parts.as_slice() else {
            return Err(Fault::new(Cause::Malformed, place));
        };
        if self.points.is_full() {
            return Err(Fault::new(Cause::PatternLimit, place));
        }
        let entry = self.points.len() as u8;
        self.points.push(Point::Choice {
            first: older.entry,
            second: later.entry,
        });
        self.parts.pop();
        self.parts.pop();
        self.parts.push(Part {
            start: older.start,
            entry,
        });
        Ok(())
    }

    // A star of the last expression.
    pub(crate) fn star(&mut self, place: u64) -> Result<(), Fault>
        ensures { (n : ℕ) (es : List Expr) → Holds self.old es → Done (on_one starred n es) place result self.new }
    {
        let [.., last] = *self.parts.as_slice() else {
            return Err(Fault::new(Cause::Malformed, place));
        };
        if self.points.is_full() {
            return Err(Fault::new(Cause::PatternLimit, place));
        }
        let star = self.points.len() as u8;
        fill_all(&mut self.points[last.start..], star);
        self.points.push(Point::Star {
            first: known(last.entry, star),
            second: OPEN,
        });
        self.parts.pop();
        self.parts.push(Part {
            start: last.start,
            entry: star,
        });
        Ok(())
    }

    // The pattern of the one expression that stands; a refusal at the end of the file where it is not one.
    pub(crate) fn into_pattern(self, place: u64) -> Result<Pattern, Fault>
        ensures { (es : List Expr) → Holds self es → Finished (final place es) result }
    {
        let Draft {
            mut points,
            text,
            parts,
            ..
        } = self;
        let [part] = *parts.as_slice() else {
            return Err(Fault::new(Cause::Malformed, place));
        };
        let end = points.len() as u8;
        fill_all(points.as_mut_slice(), end);
        Ok(Pattern {
            points: array_of(&points),
            count: end,
            text: array_of(&text),
            used: text.len() as u16,
            entry: known(part.entry, end),
        })
    }
}
