// A reading checked against its filed choices.
use crate::list::{List, usage};
use crate::out::{Outlets, Place};
use crate::symbols::Readable;
use crate::words::bytes_of;
use console::Failure;
use std::alloc::AllocError;
use std::io;
use std::rt::Files;

// Tells whether two lists of bytes are the same.
fn compare(rt: &impl Print, what: &str, one: &[u8], other: &[u8]) -> io::Result<bool> {
    let same = one == other;
    if same {
        println!(rt; "{what}: the same")?;
    } else {
        println!(rt; "{what}: NOT the same")?;
    }
    Ok(same)
}

// Refused where some bytes were not the same, which a line has told.
fn wanted(same: bool) -> Result<(), Failure> {
    if same { Ok(()) } else { Err(Failure::Refused) }
}

impl<R: Files + Input + Print + Eprint + AllocGlobal, A: Readable> List<'_, R, A>
where
    A::Symbol: Drop,
{
    fn in_memory(&self) -> Result<Outlets<R::File>, AllocError> {
        Outlets::new(self.rt.alloc(), Place::Memory, Place::Memory)
    }

    // Replays choices over the input, and tells whether the rows are these.
    fn replay_gives(&self, choices: &[u8], rows: &[u8]) -> Result<(), Failure> {
        let mut outlets = self.in_memory()?;
        let ended = self.replay_into(choices, &mut outlets);
        self.tell_replay(ended, &outlets)?;
        wanted(compare(self.rt, "rows of the replay", outlets.rows(), rows)?)
    }

    // The command: the rows and choices that were filed, if they are to be compared too with what the reading gives.
    pub(crate) fn check(&self, filed: &[String]) -> Result<(), Failure> {
        let mut outlets = self.in_memory()?;
        let ended = self.read_into(&mut outlets);
        self.tell_end(ended, &outlets)?;
        match filed {
            [] => self.replay_gives(outlets.choices(), outlets.rows()),
            [rows, choices] => {
                let rows = bytes_of(self.rt, rows.as_str())?;
                let choices = bytes_of(self.rt, choices.as_str())?;
                let same_rows = compare(self.rt, "rows of the reading", outlets.rows(), &rows)?;
                let same_choices = compare(
                    self.rt,
                    "choices of the reading",
                    outlets.choices(),
                    &choices,
                )?;
                self.replay_gives(&choices, &rows)?;
                wanted(same_rows && same_choices)
            }
            _ => Err(usage("check").into()),
        }
    }
}
