ghost use Rattle.std.specs.Prelude.{◌≤◌, ◌-◌};

use crate::model::Model;
use std::alloc::{AllocError, Global};
use tree::paths::PathTree;
use tree::refusal::Refusal;

// What the calls of a trial answered. `wrong` counts the answers that the model does not give.
#[derive(Default, Drop)]
pub struct Tally {
    pub added: u32,
    pub not_held: u32,
    pub present: u32,
    pub forked: u32,
    pub released: u32,
    pub taken: u32,
    pub largest: usize,
    pub wrong: u32,
}

// A call of the tree.
#[derive(Clone, Copy)]
enum Call {
    Add(u32),
    Release,
    TakeFirst,
}

// A generator of numbers that look random. One of a library would draw other calls, and so print other counts.
#[derive(Drop)]
struct Dice {
    seed: u64,
}

impl Dice {
    // A number below `sides`, or 0.
    fn roll(&mut self, sides: u64) -> u64
        ensures { result ≤ sides - 1 }
    {
        self.seed = self
            .seed
            .wrapping_mul(6364136223846793005)
            .wrapping_add(1442695040888963407);
        (self.seed >> 33).checked_rem(sides).unwrap_or(0)
    }

    // Mostly a held slot.
    fn slot(&mut self, model: &Model) -> u16 {
        let place = self.roll(model.len() as u64) as usize;
        match model.slot_at(place) {
            Some(_) if self.roll(16) == 0 => self.roll(4096) as u16,
            Some(slot) => slot,
            None => 0,
        }
    }

    // Any call; where many slots are held, none that adds one.
    fn call(&mut self, many: bool) -> Call {
        match self.roll(10) {
            0..=2 => Call::Release,
            3 => Call::TakeFirst,
            _ if many => Call::Release,
            _ => Call::Add(self.roll(3) as u32),
        }
    }
}

// Adds one. No trial makes as many calls as a count can hold.
fn tick(count: &mut u32) {
    *count = count.saturating_add(1);
}

// A tree beside the model of what it should hold.
#[derive(Drop)]
struct Trial {
    tree: PathTree,
    model: Model,
    tally: Tally,
}

impl Trial {
    fn note(&mut self, right: bool) {
        if !right {
            tick(&mut self.tally.wrong);
        }
    }

    fn add(&mut self, under: u16, item: u32) -> Result<(), AllocError> {
        let expected = self.model.vet(under, item)?;
        let answer = self.tree.add(under, item);
        self.note(answer.map(|_| ()) == expected);
        match answer {
            Ok(slot) => {
                let fresh = !self.model.is_held(slot);
                self.note(fresh);
                self.model.add(under, item, slot)?;
                tick(&mut self.tally.added);
            }
            Err(Refusal::NotHeld) => tick(&mut self.tally.not_held),
            Err(Refusal::Present) => tick(&mut self.tally.present),
            Err(Refusal::Forked) => tick(&mut self.tally.forked),
            Err(Refusal::Full) => {}
        }
        Ok(())
    }

    fn release(&mut self, slot: u16) {
        let held = self.model.release(slot);
        let answer = self.tree.release(slot);
        self.note(answer.is_ok() == held);
        if held {
            tick(&mut self.tally.released);
        }
    }

    fn take_first(&mut self) {
        let expected = self.model.shared();
        let answer = self.tree.take_first();
        self.note(answer == expected);
        if answer.is_some() {
            tick(&mut self.tally.taken);
            self.model.shorten();
        }
    }

    fn count(&mut self) {
        let expected = self.model.count();
        let n = self.tree.count();
        self.note(n == expected);
        self.tally.largest = self.tally.largest.max(n);
    }

    // One call, and the count after it. Where no slot is held a new tree begins.
    fn turn(&mut self, heap: Global, dice: &mut Dice) -> Result<(), AllocError> {
        if self.model.len() == 0 {
            self.tree = PathTree::new();
            self.model = Model::new(heap)?;
        }
        let slot = dice.slot(&self.model);
        match dice.call(self.model.len() > 12) {
            Call::Add(item) => self.add(slot, item)?,
            Call::Release => self.release(slot),
            Call::TakeFirst => self.take_first(),
        }
        self.count();
        Ok(())
    }
}

// Calls the tree `turns` times, with arguments that look random.
pub(crate) fn run(heap: Global, turns: u32) -> Result<Tally, AllocError> {
    let mut trial = Trial {
        tree: PathTree::new(),
        model: Model::new(heap)?,
        tally: Tally::default(),
    };
    let mut dice = Dice { seed: 2026 };
    for _ in 0..turns {
        trial.turn(heap, &mut dice)?;
    }
    Ok(trial.tally)
}
