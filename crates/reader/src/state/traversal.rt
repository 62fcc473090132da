// What the step at one symbol works with: the searches from the live walks that take it, one after another.
use crate::state::holds::{dismiss, extend};
use crate::state::{Line, Walk};
use alphabet::Alphabet;
use alphabet::item::{FIRST, SECOND, read_item};
use pattern::Pattern;
use pattern::step::Step;
use point_set::PointSet;
use tree::paths::PathTree;
use walk::Grammar;

// The tree that holds the codes of walks, the points that the searches have come to, which are marked, and the walks that they have found.
#[derive(Drop)]
pub(crate) struct Traversal {
    pub(crate) tree: PathTree,
    pub(crate) marks: PointSet,
    pub(crate) found: Line,
}

// Where a walk goes on when it reads a symbol: the next point, and the item of the read.
#[derive(Clone, Copy)]
pub(crate) struct Onward {
    pub(crate) next: u8,
    pub(crate) item: u32,
}

impl Onward {
    ghost use Rattle.reader.specs.Sweeping.{Goes};

    // Where a walk on `point` goes on, if the point takes the symbol.
    fn follow<A: Alphabet>(
        grammar: &Grammar<'_, A>,
        point: u8,
        symbol: &A::Symbol,
    ) -> Option<Onward>
        ensures { Goes (A.meaning grammar.now.alphabet.now) symbol.now grammar.now.pattern.now point result }
    {
        let Step::Read { class, next } = grammar.pattern.step(point) else {
            return None;
        };
        let item = read_item(grammar.alphabet, class as u32, symbol)?;
        Some(Onward { next, item })
    }
}

impl Traversal {
    ghost use Rattle.reader.specs.Spread.{Blank, Ready, Spread};
    ghost use Rattle.reader.specs.State.{Fit};
    ghost use Rattle.reader.specs.Sweeping.{SomeWay, LeadsOn, Sweeps};

    // The empty path alone is held, no point is marked and no walk is found.
    pub(crate) fn new() -> Traversal
        ensures { Blank result }
    {
        Traversal {
            tree: PathTree::new(),
            marks: PointSet::new(),
            found: Line::new(),
        }
    }

    // Searches from `point`, the walk to which is held by `slot`: first branches first, to no point that is marked.
    // The walks that are found go behind those found before, and their codes into the tree; `slot` is let go unless the walk ends here.
    pub(crate) fn spread(&mut self, pattern: &Pattern, point: u8, slot: u16)
        requires { Ready self.old point slot }
        ensures { Spread pattern.now self.old point slot self.new }
    {
        if self.marks.contains(point) {
            dismiss(&mut self.tree, slot);
            return;
        }
        self.marks.insert(point);
        match pattern.step(point) {
            Step::End | Step::Read { .. } => self.found.push(Walk { point, slot }),
            Step::Pass { next } => self.spread(pattern, next, slot),
            Step::Fork { first, second } => {
                let one = extend(&mut self.tree, slot, FIRST);
                self.spread(pattern, first, one);
                let other = extend(&mut self.tree, slot, SECOND);
                self.spread(pattern, second, other);
                dismiss(&mut self.tree, slot);
            }
        }
    }

    // A live walk reads the symbol and goes on, or is let go.
    fn step<A: Alphabet>(&mut self, grammar: &Grammar<'_, A>, symbol: &A::Symbol, walk: Walk)
        requires { SomeWay (A.meaning grammar.now.alphabet.now) symbol.now grammar.now.pattern.now self.old walk }
        ensures { LeadsOn (A.meaning grammar.now.alphabet.now) symbol.now grammar.now.pattern.now self.old walk self.new }
    {
        let Some(onward) = Onward::follow(grammar, walk.point, symbol) else {
            dismiss(&mut self.tree, walk.slot);
            return;
        };
        let read = extend(&mut self.tree, walk.slot, onward.item);
        dismiss(&mut self.tree, walk.slot);
        self.spread(grammar.pattern, onward.next, read);
    }

    // The live walks that take the symbol go on, in order, and the others are let go.
    // The marks go from one search to the next: what an earlier walk came to, no later one is first to.
    pub(crate) fn sweep<A: Alphabet>(
        &mut self,
        grammar: &Grammar<'_, A>,
        symbol: &A::Symbol,
        live: &Line,
    )
        requires { Fit self.old.tree live.now.items }
        ensures { Sweeps (A.meaning grammar.now.alphabet.now) symbol.now grammar.now.pattern.now self.old.tree live.now.items self.new }
    {
        self.marks.clear();
        self.found.clear();
        for walk in live.iter() {
            self.step(grammar, symbol, *walk);
        }
    }
}
