// A run.
ghost use Rattle.run.specs.State.{state_pattern, state_held};
ghost use Rattle.run.specs.Inner.{Held};

use crate::finished::Finished;
use crate::state::State;
use alphabet::Alphabet;
use fault::Fault;
use pattern::Pattern;
use sink::Sink;
use walk::Grammar;

// A run over a pattern, by an alphabet. What it holds is the state of some stage. It has no copy, and finishing uses it up.
#[derive(Drop)]
pub struct Run<'p, A: Alphabet> {
    state: State<'p, A>,
    ghost stage: { ∥ Held (state_pattern state) (state_held state) ∥₁ },
}

// None of its calls asks for anything.
// Each tells of every stage of which the run is the state, over its alphabet's symbols and, under `seen`, over what the alphabet says of them: by its type a run is the state
// of some stage of the latter kind.
impl<'p, A: Alphabet> Run<'p, A> {
    ghost use Rattle.std.specs.Prelude.{◌≡◌, ℕ, List, map};
    ghost use Rattle.reader.specs.Seen.{see, every};
    ghost use Rattle.run.specs.Sinks.{standing};
    ghost use Rattle.run.specs.Run.{pattern_of, alphabet_of, meaning_of, held_by};
    ghost use Rattle.run.specs.Inner.{Opens, Feeds, Closes, CountsLive};

    // Opens a run over a pattern; answers it with how many items it handed over. A refused opening answers a failed run, which holds the fault.
    pub fn open<K: Sink>(pattern: &'p Pattern, alphabet: &'p A, sink: &mut K) -> (Run<'p, A>, u64)
        ensures pattern { pattern_of result.0 ≡ pattern.now }
        ensures alphabet { alphabet_of result.0 ≡ alphabet.now }
        ensures opens { Opens (A.Alphabet.meaning alphabet.now) pattern.now K.Sink.meaning (standing K.Sink sink.old) result.1 (held_by result.0) (standing K.Sink sink.new) }
    {
        let (state, count) = State::open(Grammar { pattern, alphabet }, sink);
        (Run { state }, count)
    }

    // Feeds a piece, one symbol after another; answers how many items were handed over, or the fault. A failed run answers its fault.
    pub fn feed<K: Sink>(&mut self, sink: &mut K, piece: &[A::Symbol]) -> Result<u64, Fault>
        ensures pattern { pattern_of self.new ≡ pattern_of self.old }
        ensures alphabet { alphabet_of self.new ≡ alphabet_of self.old }
        ensures feeds { Feeds (meaning_of self.old) (pattern_of self.old) K.Sink.meaning piece.now (held_by self.old) (standing K.Sink sink.old) result (held_by self.new) (standing K.Sink sink.new) }
        ensures seen { Feeds every (pattern_of self.old) K.Sink.meaning (map (see (meaning_of self.old)) piece.now) (held_by self.old) (standing K.Sink sink.old) result (held_by self.new) (standing K.Sink sink.new) }
    {
        self.state.feed(sink, piece)
    }

    // Finishes the run and uses it up: hands over the rest of the greedy code, and answers the items handed over in all and the symbols read.
    pub fn finish<K: Sink>(self, sink: &mut K) -> Result<Finished, Fault>
        ensures closes { Closes (meaning_of self.entry) (pattern_of self.entry) K.Sink.meaning (held_by self.entry) (standing K.Sink sink.old) result (standing K.Sink sink.new) }
        ensures seen { Closes every (pattern_of self.entry) K.Sink.meaning (held_by self.entry) (standing K.Sink sink.old) result (standing K.Sink sink.new) }
    {
        self.state.finish(sink)
    }

    // The fault that a failed run holds; none while the run is open.
    pub fn fault(&self) -> Option<Fault>
        ensures { result ≡ (held_by self.now).fault }
    {
        self.state.book.fault
    }

    // The number of live walks; 0 when the run has failed.
    pub fn live_walks(&self) -> u32
        ensures live { CountsLive (meaning_of self.now) (pattern_of self.now) (held_by self.now) result }
        ensures seen { CountsLive every (pattern_of self.now) (held_by self.now) result }
    {
        self.state.live_walks()
    }
}
