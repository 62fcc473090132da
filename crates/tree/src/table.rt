ghost use Rattle.std.specs.Prelude.{◌≡◌, ℕ, ◌+◌, ◌^◌, ◌<◌, ◌≤◌, false, true, IsTrue, ◌⊎◌, length};
ghost use Rattle.tree.specs.Limits.{capacity, slot_count};

use crate::limits::{CAPACITY, SLOTS};
use arrayvec::ArrayVec;
use std::mem;

// One item of the tree. As a parent slot 0 says that the entry is free, and the root is its own parent.
// `uses` counts the entries with this one as their parent, and `below` is the sum of their slots.
// The parent is no Option: no call asks whether an entry is free, and each step up would have to unwrap it.
#[derive(Clone, Copy, Default)]
pub(crate) struct Entry {
    pub(crate) item: u32,
    pub(crate) parent: u16,
    pub(crate) uses: u16,
    pub(crate) below: u16,
    pub(crate) held: bool,
}

// What stands below an entry: nothing, one child (its slot), or several. No Option: there are three cases.
#[derive(Clone, Copy)]
pub(crate) enum Next {
    Nothing,
    Only(u16),
    Several,
}

impl Entry {
    ghost use Rattle.tree.specs.Records.{wider, slimmer};
    ghost use Rattle.tree.specs.Next.{Stands};

    // With the child in slot `s` more.
    pub(crate) fn with_child(self, s: u16) -> Entry
        requires uses { self.uses + 1 < 2 ^ 16 }
        requires below { self.below + s < 2 ^ 16 }
        ensures { result ≡ wider self s }
    {
        Entry {
            uses: self.uses + 1,
            below: self.below + s,
            ..self
        }
    }

    // With the child in slot `s` less.
    pub(crate) fn without_child(self, s: u16) -> Entry
        requires uses { 0 < self.uses }
        requires below { s ≤ self.below }
        ensures { result ≡ slimmer self s }
    {
        Entry {
            uses: self.uses - 1,
            below: self.below - s,
            ..self
        }
    }

    // What its numbers say of its children.
    pub(crate) fn next(self) -> Next
        ensures { Stands self.uses self.below result }
    {
        match self.uses {
            0 => Next::Nothing,
            1 => Next::Only(self.below),
            _ => Next::Several,
        }
    }

    // Whether it has no child and is not held.
    fn is_idle(self) -> bool
        ensures yes { IsTrue result → (self.uses ≡ 0) × (self.held ≡ false) }
        ensures no { result ≡ false → (0 < self.uses) ⊎ (self.held ≡ true) }
    {
        self.uses == 0 && !self.held
    }
}

// The table under a path tree. The root's item does not count: its path is empty.
// A rule of the project: item records in an array, with slot numbers in place of links.
#[derive(Drop)]
pub(crate) struct Table {
    pub(crate) entries: [Entry; SLOTS],
    // The free slots.
    pub(crate) spare: ArrayVec<u16, CAPACITY>,
    pub(crate) root: u16,
}

impl Table {
    ghost use Rattle.tree.specs.Records.{at, vacated, shed};
    ghost use Rattle.tree.specs.Sound.{par, left, Sound, Idle, Pruned};

    // Frees the slot `j`, and answers the entry that stood there.
    pub(crate) fn vacate(&mut self, j: u16) -> Entry
        requires slot { j < slot_count }
        requires room { left self.old < capacity }
        ensures value { result ≡ at self.old.entries j }
        ensures after { self.new ≡ vacated self.old j }
    {
        self.spare.push(j);
        mem::take(&mut self.entries[j as usize])
    }

    // Takes the entry `j`, which nothing uses, off its parent, which is the answer.
    fn shed(&mut self, j: u16) -> u16
        requires { Idle self.old j }
        ensures value { result ≡ par self.old j }
        ensures after { self.new ≡ shed self.old j }
    {
        let p = self.vacate(j).parent;
        self.entries[p as usize] = self.entries[p as usize].without_child(j);
        p
    }

    // Frees `i` and the entries above it, from below, as far as nothing uses them.
    pub(crate) fn prune(&mut self, i: u16)
        requires sound { Sound i self.old }
        requires used { 0 < par self.old i }
        ensures { Pruned self.old self.new }
    {
        let mut j = i;
        while self.entries[j as usize].is_idle() {
            j = self.shed(j);
        }
    }
}
