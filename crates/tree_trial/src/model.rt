use indexmap::IndexMap;
use std::alloc::{AllocError, Global};
use tree::limits::FIRST_SLOT;
use tree::refusal::Refusal;

// How many items two paths share at their beginnings.
fn shared_len(one: &[u32], other: &[u32]) -> usize {
    one.iter().zip(other).take_while(|(a, b)| a == b).count()
}

// What a tree should hold: the path of each held slot. The order of the slots decides which are drawn.
#[derive(Drop)]
pub(crate) struct Model {
    heap: Global,
    paths: IndexMap<u16, Vec<u32>>,
}

impl Model {
    // The empty path, which the first slot holds.
    pub(crate) fn new(heap: Global) -> Result<Model, AllocError> {
        let mut paths = IndexMap::new(heap);
        paths.insert(FIRST_SLOT, Vec::new(heap))?;
        Ok(Model { heap, paths })
    }

    // How many slots are held.
    pub(crate) fn len(&self) -> usize {
        self.paths.len()
    }

    pub(crate) fn slot_at(&self, place: usize) -> Option<u16> {
        self.paths.get_index(place).map(|(slot, _)| *slot)
    }

    pub(crate) fn is_held(&self, slot: u16) -> bool {
        self.paths.contains_key(&slot)
    }

    // Whether `item` may be added under the slot `under`. There is always room here.
    pub(crate) fn vet(&self, under: u16, item: u32) -> Result<Result<(), Refusal>, AllocError> {
        let Some(path) = self.paths.get(&under) else {
            return Ok(Err(Refusal::NotHeld));
        };
        let mut next = Vec::new(self.heap);
        for other in self.paths.values() {
            if let Some([first, ..]) = other.strip_prefix(path) {
                if !next.contains(first) {
                    next.push(*first)?;
                }
            }
        }
        if next.len() >= 2 {
            return Ok(Err(Refusal::Forked));
        }
        if next.contains(&item) {
            return Ok(Err(Refusal::Present));
        }
        Ok(Ok(()))
    }

    // `slot` holds the path of `under` and then `item`.
    pub(crate) fn add(&mut self, under: u16, item: u32, slot: u16) -> Result<(), AllocError> {
        let mut path = match self.paths.get(&under) {
            Some(path) => path.clone()?,
            None => Vec::new(self.heap),
        };
        path.push(item)?;
        self.paths.insert(slot, path)?;
        Ok(())
    }

    // Lets the holder go; whether there was one.
    pub(crate) fn release(&mut self, slot: u16) -> bool {
        self.paths.swap_remove(&slot).is_some()
    }

    // The item with which all paths begin.
    pub(crate) fn shared(&self) -> Option<u32> {
        let mut firsts = self.paths.values().map(|path| path.first());
        let item = *firsts.next()??;
        firsts.all(|first| first == Some(&item)).then_some(item)
    }

    // Takes the first item off every path.
    pub(crate) fn shorten(&mut self) {
        for path in self.paths.values_mut() {
            if !path.is_empty() {
                path.remove(0);
            }
        }
    }

    // How many different non-empty beginnings the paths have: of each path those that no earlier path begins with.
    pub(crate) fn count(&self) -> usize {
        let mut count: usize = 0;
        for (place, path) in self.paths.values().enumerate() {
            let earlier = self.paths.values().take(place);
            let shared = earlier.map(|other| shared_len(other, path)).max();
            let own = path.len().saturating_sub(shared.unwrap_or(0));
            count = count.saturating_add(own);
        }
        count
    }
}
