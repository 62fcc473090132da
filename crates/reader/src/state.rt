// The state of a reading.
ghost use Rattle.std.specs.Prelude.{◌≡◌, ◌<◌, ◌≤◌, true, false};
ghost use Rattle.tree.specs.Limits.{countable};

use crate::buffer::Buffer;
use crate::stop::Stop;
use alphabet::Alphabet;
use arrayvec::ArrayVec;
use pattern::Pattern;
use pattern::limits::POINTS;
use point_set::PointSet;
use tree::limits::{COUNTABLE, FIRST_SLOT};
use walk::Grammar;

mod holds;
mod traversal;

use holds::dismiss;
use traversal::Traversal;

// A walk: the point that it ends on, and the slot of the tree that holds its code.
#[derive(Clone, Copy, Default)]
pub(crate) struct Walk {
    pub(crate) point: u8,
    pub(crate) slot: u16,
}

// Room for a walk to each point of a pattern and one to its end point.
const WALKS: usize = POINTS + 1;

// Walks in order, earliest first.
pub(crate) type Line = ArrayVec<Walk, WALKS>;

// The live walks, and what the step at one symbol works with. The tree there holds their codes past what came off.
#[derive(Drop)]
pub(crate) struct Core {
    pub(crate) traversal: Traversal,
    pub(crate) live: Line,
}

// Whether a tree counts more than it may.
fn is_over(count: usize) -> bool
    ensures over { result ≡ true → countable < count }
    ensures within { result ≡ false → count ≤ countable }
{
    count > COUNTABLE
}

impl Core {
    ghost use Rattle.std.specs.Prelude.{◌≡◌, ℕ, ◌<◌, ◌==◌, true, false, ◌↔◌, [], length, find};
    ghost use Rattle.tree.specs.Limits.{capacity};
    ghost use Rattle.reader.specs.Marks.{marked};
    ghost use Rattle.reader.specs.Spread.{On};
    ghost use Rattle.reader.specs.Calls.{held_in};
    ghost use Rattle.reader.specs.State.{Fit};
    ghost use Rattle.reader.specs.Reading.{Opened, Advances, Exactly};
    ghost use Rattle.reader.specs.Ending.{Ends};
    ghost use Rattle.reader.specs.Seen.{see, every};

    // The walks of no symbols from the entry of the pattern. What they share comes off, into `out`.
    pub(crate) fn open(pattern: &Pattern, out: &mut Buffer) -> Core
        ensures { Opened pattern.now result (held_in out.new) }
    {
        let mut traversal = Traversal::new();
        traversal.spread(pattern, pattern.entry(), FIRST_SLOT);
        out.gather(&mut traversal.tree);
        let live = traversal.found.take();
        Core { traversal, live }
    }

    // Reads one symbol. What all live walks then share comes off, into `out`.
    pub(crate) fn advance<A: Alphabet>(
        &mut self,
        grammar: &Grammar<'_, A>,
        symbol: &A::Symbol,
        out: &mut Buffer,
    ) -> Result<(), Stop>
        requires { Fit self.old.traversal.tree self.old.live.items }
        ensures reads { Advances (A.meaning grammar.now.alphabet.now) grammar.now.pattern.now symbol.now self.old result self.new (held_in out.new) }
        ensures seen { Advances every grammar.now.pattern.now (see (A.meaning grammar.now.alphabet.now) symbol.now) self.old result self.new (held_in out.new) }
        ensures exact { Exactly (A.meaning grammar.now.alphabet.now) grammar.now.pattern.now symbol.now self.old result }
    {
        self.traversal.sweep(grammar, symbol, &self.live);
        if self.traversal.found.is_empty() {
            out.items.clear();
            return Err(Stop::Dead);
        }
        out.gather(&mut self.traversal.tree);
        if is_over(self.traversal.tree.count()) {
            out.items.clear();
            return Err(Stop::TreeFull);
        }
        // Copied, since a swap of the two vectors moves both whole arrays: 168 ns a symbol, and copied 129.
        self.live.clear();
        self.live
            .try_extend_from_slice(&self.traversal.found)
            .unwrap();
        Ok(())
    }

    // Whether a live walk ends on the end point. What is left of its code comes off, into `out`.
    pub(crate) fn end<A: Alphabet>(&mut self, grammar: &Grammar<'_, A>, out: &mut Buffer) -> bool
        requires { Fit self.old.traversal.tree self.old.live.items }
        ensures none { result ≡ false → held_in out.new ≡ [] }
        ensures few { length (held_in out.new) < capacity }
        ensures ends { Ends (A.meaning grammar.now.alphabet.now) grammar.now.pattern.now self.old result (held_in out.new) }
        ensures seen { Ends every grammar.now.pattern.now self.old result (held_in out.new) }
    {
        let end = grammar.pattern.count();
        if self.walk_to(end).is_none() {
            out.items.clear();
            return false;
        }
        let tree = &mut self.traversal.tree;
        for walk in self.live.iter() {
            if walk.point != end {
                dismiss(tree, walk.slot);
            }
        }
        out.gather(tree);
        true
    }

    // The live walk that ends on a point, if there is one.
    fn walk_to(&self, point: u8) -> Option<Walk>
        ensures { result ≡ find (λ w. w.point == point) self.now.live.items }
    {
        self.live.iter().copied().find(|walk| walk.point == point)
    }

    // The points on which the live walks end.
    pub(crate) fn live_points(&self) -> PointSet
        ensures { (q : ℕ) → (marked result q ≡ true) ↔ On q self.now.live.items }
    {
        let mut points = PointSet::new();
        for walk in self.live.iter() {
            let point = walk.point;
            points.insert(point);
        }
        points
    }
}
