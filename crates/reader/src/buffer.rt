// A buffer for the items that one call takes off the tree.
use arrayvec::ArrayVec;
use tree::limits::CAPACITY;
use tree::paths::PathTree;

// The items of the last call, in order. It has room for all that a tree can hold.
#[derive(Drop)]
pub struct Buffer {
    pub(crate) items: ArrayVec<u32, CAPACITY>,
}

impl Buffer {
    ghost use Rattle.std.specs.Prelude.{◌≡◌, ◌+◌, ◌≤◌, [], length};
    ghost use Rattle.tree.specs.Limits.{capacity};
    ghost use Rattle.tree.specs.Held.{room};
    ghost use Rattle.reader.specs.Calls.{held_in};
    ghost use Rattle.reader.specs.Gather.{Gathered, Parted};

    // An empty buffer.
    pub fn new() -> Buffer
        ensures { held_in result ≡ [] }
    {
        Buffer {
            items: ArrayVec::new(),
        }
    }

    // Its items, in order.
    pub fn items(&self) -> &[u32]
        ensures value { result.now ≡ held_in self.now }
        ensures few { length result.now ≤ capacity }
    {
        self.items.as_slice()
    }

    // Takes what all paths of a tree share off them. These are the items then.
    pub(crate) fn gather(&mut self, tree: &mut PathTree)
        ensures all { Gathered tree.old (held_in self.new) tree.new }
        ensures parted { Parted tree.new }
        ensures came { length (held_in self.new) + room tree.old ≡ room tree.new }
    {
        self.items.clear();
        while let Some(item) = tree.take_first() {
            self.items.push(item);
        }
    }
}
