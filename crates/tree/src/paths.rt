ghost use Rattle.std.specs.Prelude.{◌≡◌, ℕ, ◌+◌, ◌-◌, ◌<◌, true, is_ok, slice_index};
ghost use Rattle.arrayvec.specs.ArrayVec.{array_vec_len};
ghost use Rattle.tree.specs.Limits.{capacity, reserved};
ghost use Rattle.tree.specs.Sound.{Sound};

use crate::limits::{CAPACITY, FIRST_SLOT, RESERVED, SLOTS};
use crate::refusal::Refusal;
use crate::table::{Entry, Next, Table};
use arrayvec::ArrayVec;
use std::array;

// Held paths that share their beginnings. What must hold of the table always holds.
#[derive(Drop)]
pub struct PathTree {
    table: Table,
    ghost sound: { ∥ Sound 0 table ∥₁ },
}

// The free slots of a new tree.
fn spares() -> ArrayVec<u16, CAPACITY>
    ensures size { array_vec_len result ≡ capacity }
    ensures slots { (k : ℕ) → k < capacity → slice_index result.items k ≡ k + reserved }
{
    ArrayVec::from(array::from_fn(|k| (k + RESERVED) as u16))
}

impl PathTree {
    ghost use Rattle.tree.specs.Sound.{par, uses_of, below_of, held_of};
    ghost use Rattle.tree.specs.Next.{Stands, Leads, Vets};
    ghost use Rattle.tree.specs.Prefixes.{Counts};
    ghost use Rattle.tree.specs.Held.{room, Holder, Start, Addable, New, Adds, Releases, Takes};

    // The tree of the empty path alone, which `FIRST_SLOT` holds.
    pub fn new() -> PathTree
        ensures { New result }
    {
        let mut entries = [Entry::default(); SLOTS];
        entries[FIRST_SLOT as usize] = Entry {
            parent: FIRST_SLOT,
            held: true,
            ..Entry::default().with_child(FIRST_SLOT)
        };
        PathTree {
            table: Table {
                entries,
                spare: spares(),
                root: FIRST_SLOT,
            },
        }
    }

    // A new holder, whose path is that of `under` and then `item`.
    pub fn add(&mut self, under: u16, item: u32) -> Result<u16, Refusal>
        ensures adds { Adds self.old under item result self.new }
        ensures granted { Addable self.old under item → is_ok result ≡ true }
    {
        self.vet(under, item)?;
        let slot = self.table.spare.pop().unwrap();
        self.table.entries[slot as usize] = Entry {
            item,
            parent: under,
            held: true,
            ..Entry::default()
        };
        self.table.entries[under as usize] = self.table.entries[under as usize].with_child(slot);
        Ok(slot)
    }

    // Lets a holder go; every entry that no holder uses any more is free again.
    pub fn release(&mut self, holder: u16) -> Result<(), Refusal>
        ensures releases { Releases self.old holder result self.new }
        ensures granted { Holder self.old holder → is_ok result ≡ true }
    {
        if !self.is_held(holder) {
            return Err(Refusal::NotHeld);
        }
        self.table.entries[holder as usize].held = false;
        self.table.prune(holder);
        Ok(())
    }

    // The item with which every held path begins, taken off them all.
    pub fn take_first(&mut self) -> Option<u32>
        ensures { Takes self.old result self.new }
    {
        let root = self.table.root;
        let held = self.is_held(root);
        if held {
            return None;
        }
        let Next::Only(child) = self.next(root) else {
            return None;
        };
        let only = self.table.entries[child as usize];
        self.table.vacate(root);
        self.table.entries[child as usize] = Entry {
            parent: child,
            ..only.with_child(child)
        };
        self.table.root = child;
        Some(only.item)
    }

    // How many different non-empty beginnings the held paths have.
    pub fn count(&self) -> usize
        ensures counts { Counts (Start self.now) result }
        ensures room { result + room self.now ≡ capacity }
    {
        self.table.spare.remaining_capacity()
    }

    fn is_held(&self, i: u16) -> bool
        ensures { result ≡ held_of self.now.table i }
    {
        self.table.entries.get(i as usize).is_some_and(|e| e.held)
    }

    // The children of `p`. The root counts itself among its own.
    fn next(&self, p: u16) -> Next
        requires { 0 < par self.now.table p }
        ensures leads { Leads self.now.table p result }
        ensures root { p ≡ self.now.table.root → Stands (uses_of self.now.table p - 1) (below_of self.now.table p - p) result }
    {
        let e = self.table.entries[p as usize];
        if p == self.table.root {
            return e.without_child(p).next();
        }
        e.next()
    }

    // Whether an entry with `item` can be added under `p`.
    fn vet(&self, p: u16, item: u32) -> Result<(), Refusal>
        ensures { Vets self.now.table p item result }
    {
        if !self.is_held(p) {
            return Err(Refusal::NotHeld);
        }
        if self.table.spare.is_empty() {
            return Err(Refusal::Full);
        }
        match self.next(p) {
            Next::Only(c) if self.table.entries[c as usize].item == item => Err(Refusal::Present),
            Next::Several => Err(Refusal::Forked),
            _ => Ok(()),
        }
    }
}
