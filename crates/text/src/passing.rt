// Passing texts.
ghost use Rattle.std.specs.Prelude.{◌≡◌, ◌+◌, ◌≤◌, ◌++◌, length};
ghost use Rattle.std.specs.Iterator.{at_most};
ghost use Rattle.sink.specs.Limits.{stock_bytes};
ghost use Rattle.sink.specs.Held.{held};

use crate::kind::Kind;
use pattern::{Pattern, Step};
use sink::Stock;

// The texts from a point on, in their order; `at` is the point that one has come to.
#[derive(Clone, Copy)]
pub(crate) struct Texts<'p> {
    pub pattern: &'p Pattern,
    pub at: u8,
}

impl<'p> Iterator for Texts<'p> {
    type Item = &'p [u8];

    ghost use Rattle.text.specs.Texts.{TextsGive, points_left};

    ghost next_gives = { TextsGive };

    ghost remaining = { λ s. at_most (points_left s) };

    fn next(&mut self) -> Option<&'p [u8]> {
        let Step::Pass { next } = self.pattern.step(self.at) else {
            return None;
        };
        let text = self.pattern.text(self.at);
        self.at = next;
        Some(text)
    }
}

// The kind of the point past the texts, and how many bytes the texts have.
#[derive(Clone, Copy)]
pub(crate) struct Passage {
    pub kind: Kind,
    pub bytes: usize,
}

impl<'p> Texts<'p> {
    ghost use Rattle.text.specs.Texts.{kind_past, bytes_left};

    // The way past the texts.
    pub(crate) fn pass(mut self) -> Passage
        ensures kind { result.kind ≡ kind_past self.entry }
        ensures long { result.bytes ≡ length (bytes_left self.entry) }
    {
        let mut bytes = 0;
        while let Some(text) = self.next() {
            bytes += text.len();
        }
        Passage {
            kind: self.pattern.point(self.at).into(),
            bytes,
        }
    }

    // Adds the texts to the stock, which has room for them.
    pub(crate) fn append_to(self, stock: &mut Stock)
        requires { length (held stock.old) + length (bytes_left self) ≤ stock_bytes }
        ensures { held stock.new ≡ held stock.old ++ bytes_left self.entry }
    {
        for text in self {
            stock.append(text).unwrap();
        }
    }
}
