// What a run keeps count of.
ghost use Rattle.std.specs.Prelude.{◌+◌, ◌*◌, ◌≤◌};
ghost use Rattle.tree.specs.Limits.{capacity};

use crate::finished::Finished;
use crate::limits::LENGTH_LIMIT;
use fault::{Cause, Fault};
use sink::Handed;

// The symbols read, the items handed over in all, and the fault that is remembered, or none while the run is open.
#[derive(Clone, Copy)]
pub(crate) struct Book {
    pub(crate) read: u32,
    pub(crate) handed: u64,
    pub(crate) fault: Option<Fault>,
    ghost few: { handed ≤ capacity * (read + 1) },
}

impl Book {
    ghost use Rattle.std.specs.Prelude.{◌≡◌, ◌-◌, ◌<◌, true, false};
    ghost use Rattle.std.specs.Result.{result_err};
    ghost use Rattle.run.specs.Limits.{length_limit};
    ghost use Rattle.run.specs.Stages.{fault_at};
    ghost use Rattle.run.specs.Inner.{Noted};

    // Whether the length limit is reached.
    pub(crate) fn full(&self) -> bool
        ensures reached { result ≡ true → self.now.read ≡ length_limit }
        ensures below { result ≡ false → self.now.read < length_limit }
    {
        self.read == LENGTH_LIMIT
    }

    // Remembers a refusal at the symbols read, and answers it.
    pub(crate) fn refuse(&mut self, cause: Cause) -> Fault
        ensures value { result ≡ fault_at cause self.old.read }
        ensures noted { Noted self.old self.new (fault_at cause self.old.read) }
    {
        let fault = Fault::new(cause, self.read as u64);
        self.fault = Some(fault);
        fault
    }

    // Counts one symbol read and the items that were taken for it, and remembers the sink's refusal, if there was one.
    pub(crate) fn count(&mut self, given: &Handed)
        requires short { self.old.read < length_limit }
        requires few { given.now.count ≤ capacity }
        ensures read { self.new.read ≡ self.old.read + 1 }
        ensures handed { self.new.handed ≡ self.old.handed + given.now.count }
        ensures fault { self.new.fault ≡ result_err given.now.answer }
    {
        *self = Book {
            read: self.read + 1,
            handed: self.handed + given.count as u64,
            fault: given.answer.err(),
        };
    }

    // How many items were handed over since there were so many.
    pub(crate) fn since(&self, before: u64) -> u64
        requires { before ≤ self.now.handed }
        ensures { result ≡ self.now.handed - before }
    {
        self.handed - before
    }

    // What a finish answers that handed over so many items more.
    pub(crate) fn finished(&self, more: u64) -> Finished
        requires { more ≤ capacity }
        ensures items { result.items ≡ self.now.handed + more }
        ensures symbols { result.symbols ≡ self.now.read }
    {
        Finished {
            items: self.handed + more,
            symbols: self.read,
        }
    }
}
