// A pattern with the alphabet that it is read by.
ghost use Rattle.std.specs.Prelude.{◌≡◌, ◌+◌, true, false};
ghost use Rattle.pattern.specs.Limits.{largest_number};
ghost use Rattle.walk.specs.Graphs.{ClassesBelow, LacksClass, ReadsBelow, graph_of};

use alphabet::Alphabet;
use pattern::{Pattern, Step};

// What a reading goes by, whatever its symbols.
#[derive_where(Clone, Copy)]
pub struct Grammar<'p, A> {
    pub pattern: &'p Pattern,
    pub alphabet: &'p A,
}

// Whether the point reads a class at or above the count.
fn reads_beyond(pattern: &Pattern, point: u8, count: u32) -> bool
    ensures above { result ≡ true → LacksClass count (graph_of pattern.now) }
    ensures below { result ≡ false → ReadsBelow count (graph_of pattern.now) point }
{
    match pattern.step(point) {
        Step::Read { class, .. } => u32::from(class) >= count,
        _ => false,
    }
}

impl<'p, A: Alphabet> Grammar<'p, A> {
    // Whether the alphabet has every class that the pattern reads.
    pub fn knows_classes(&self) -> bool
        ensures known { result ≡ true → ClassesBelow (A.meaning self.now.alphabet.now).classes (graph_of self.now.pattern.now) }
        ensures numbered { result ≡ true → ClassesBelow (largest_number + 1) (graph_of self.now.pattern.now) }
        ensures unknown { result ≡ false → LacksClass (A.meaning self.now.alphabet.now).classes (graph_of self.now.pattern.now) }
    {
        self.reads_below(self.alphabet.class_count())
    }

    // Whether every class that the pattern reads is below the count. A class is a number of a pattern file.
    pub fn reads_below(&self, count: u32) -> bool
        ensures below { result ≡ true → ClassesBelow count (graph_of self.now.pattern.now) }
        ensures numbered { result ≡ true → ClassesBelow (largest_number + 1) (graph_of self.now.pattern.now) }
        ensures beyond { result ≡ false → LacksClass count (graph_of self.now.pattern.now) }
    {
        for point in 0..self.pattern.count() {
            if reads_beyond(self.pattern, point, count) {
                return false;
            }
        }
        true
    }
}
