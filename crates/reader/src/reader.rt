// A reader: it reads the symbols of an input one by one, by a pattern and an alphabet.
ghost use Rattle.std.specs.Prelude.{◌≡◌, None};
ghost use Rattle.reader.specs.Seen.{SomeReading};

use crate::buffer::Buffer;
use crate::state::Core;
use crate::stop::Stop;
use alphabet::Alphabet;
use alphabet::item::END_MARK;
use pattern::Pattern;
use point_set::PointSet;
use walk::Grammar;

// `stop` is the refusal of the symbol that was not read, if there was one. Up to then the core is the state of a reading.
#[derive(Drop)]
pub struct Reader<'p, A: Alphabet> {
    grammar: Grammar<'p, A>,
    core: Core,
    stop: Option<Stop>,
    ghost stands: { (stop ≡ None → ∥ SomeReading grammar.pattern.now core ∥₁) },
}

// None of its calls asks for anything.
impl<'p, A: Alphabet> Reader<'p, A> {
    ghost use Rattle.std.specs.Prelude.{◌≡◌, [], Some, None, Ok, Err};
    ghost use Rattle.std.specs.Result.{result_err};
    ghost use Rattle.reader.specs.declared.stop.Stop.{Stop as Stopping};
    ghost use Rattle.reader.specs.Reading.{StateOf, Advances, Exactly};
    ghost use Rattle.reader.specs.Calls.{held_in, Still, Finishes, Over, ShowsLive, ShowsNone};
    ghost use Rattle.reader.specs.Seen.{see, every};

    // A reader of no symbols yet. What the live walks share comes off, into `out`.
    pub fn open(pattern: &'p Pattern, alphabet: &'p A, out: &mut Buffer) -> Reader<'p, A>
        ensures pattern { result.grammar.pattern.now ≡ pattern.now }
        ensures alphabet { result.grammar.alphabet.now ≡ alphabet.now }
        ensures fresh { result.stop ≡ None }
        ensures starts { StateOf (A.meaning alphabet.now) pattern.now result.core [] (held_in out.new) }
        ensures seen { StateOf every pattern.now result.core [] (held_in out.new) }
    {
        let core = Core::open(pattern, out);
        Reader {
            grammar: Grammar { pattern, alphabet },
            core,
            stop: None,
        }
    }

    // Reads one symbol, or refuses it. What the live walks then share comes off, into `out`.
    // After a refusal each further symbol is refused likewise.
    pub fn read(&mut self, symbol: &A::Symbol, out: &mut Buffer) -> Result<(), Stop>
        ensures pattern { self.new.grammar.pattern.now ≡ self.old.grammar.pattern.now }
        ensures alphabet { self.new.grammar.alphabet.now ≡ self.old.grammar.alphabet.now }
        ensures stop { self.new.stop ≡ result_err result }
        ensures stopped { (f : Stopping) → self.old.stop ≡ Some f → Still f self.old.core result self.new.core (held_in out.new) }
        ensures reads { self.old.stop ≡ None → Advances (A.meaning self.old.grammar.alphabet.now) self.old.grammar.pattern.now symbol.now self.old.core result self.new.core (held_in out.new) }
        ensures seen { self.old.stop ≡ None → Advances every self.old.grammar.pattern.now (see (A.meaning self.old.grammar.alphabet.now) symbol.now) self.old.core result self.new.core (held_in out.new) }
        ensures exact { self.old.stop ≡ None → Exactly (A.meaning self.old.grammar.alphabet.now) self.old.grammar.pattern.now symbol.now self.old.core result }
    {
        if let Some(stop) = self.stop {
            out.items.clear();
            return Err(stop);
        }
        let answer = self.core.advance(&self.grammar, symbol, out);
        self.stop = answer.err();
        answer
    }

    // Ends the reading: whether what was read is accepted, which is an answer and no refusal of a reader. What is left of its greedy code comes off, into `out`.
    pub fn end(self, out: &mut Buffer) -> Result<bool, Stop>
        ensures stopped { (f : Stopping) → self.entry.stop ≡ Some f → Over f result (held_in out.new) }
        ensures ends { self.entry.stop ≡ None → Finishes (A.meaning self.entry.grammar.alphabet.now) self.entry.grammar.pattern.now self.entry.core result (held_in out.new) }
        ensures seen { self.entry.stop ≡ None → Finishes every self.entry.grammar.pattern.now self.entry.core result (held_in out.new) }
    {
        if let Some(stop) = self.stop {
            out.items.clear();
            return Err(stop);
        }
        let mut core = self.core;
        if !core.end(&self.grammar, out) {
            return Ok(false);
        }
        out.items.push(END_MARK);
        Ok(true)
    }

    // The points on which live walks end: none after a refusal.
    pub fn live_points(&self) -> PointSet
        ensures stopped { (f : Stopping) → self.now.stop ≡ Some f → ShowsNone result }
        ensures live { self.now.stop ≡ None → ShowsLive (A.meaning self.now.grammar.alphabet.now) self.now.grammar.pattern.now self.now.core result }
        ensures seen { self.now.stop ≡ None → ShowsLive every self.now.grammar.pattern.now self.now.core result }
    {
        match self.stop {
            Some(_) => PointSet::new(),
            None => self.core.live_points(),
        }
    }
}
