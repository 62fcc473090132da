// A replay that hands its items over one by one.
ghost use Rattle.std.specs.Prelude.{◌≡◌, ◌≤◌, length, MatchResult};
ghost use Rattle.std.specs.Option.{unwrap_or};
ghost use Rattle.pattern.specs.Patterns.{points_of};
ghost use Rattle.walk.specs.Graphs.{graph_of};
ghost use Rattle.replay.specs.Unread.{bytes_in};
ghost use Rattle.replay.specs.Playing.{stand, ahead, Falls, LeftSome, Plays, Opens, Bars};

use crate::cursor::Cursor;
use crate::played::Played;
use alphabet::Alphabet;
use fault::{Cause, Fault};
use pattern::Pattern;
use sink::Sink;
use walk::Grammar;

// A playback of filed bits over the symbols of an input, by a pattern and an alphabet. No call asks for anything.
#[derive(Drop)]
pub struct Playback<'f, A: Alphabet> {
    grammar: Grammar<'f, A>,
    symbols: &'f [A::Symbol],
    cursor: Cursor<'f>,
    // It stands at a point of the pattern or at its end.
    ghost here: { unwrap_or cursor.at 0 ≤ length (points_of grammar.pattern.now) },
}

impl<'f, A: Alphabet> Playback<'f, A> {
    // A playback that has handed nothing over. It refuses with 4 at place 0 where the alphabet lacks a class of the pattern.
    pub fn open(
        pattern: &'f Pattern,
        alphabet: &'f A,
        filed: &'f [u8],
        symbols: &'f [A::Symbol],
    ) -> Result<Playback<'f, A>, Fault>
        ensures { MatchResult result (λ b. Opens (A.Alphabet.meaning alphabet.now) pattern.now filed.now symbols.now alphabet.now b.grammar.pattern.now b.cursor b.symbols.now b.grammar.alphabet.now) (λ f. Bars (A.Alphabet.meaning alphabet.now) pattern.now f) }
    {
        let grammar = Grammar { pattern, alphabet };
        if !grammar.reads_below(alphabet.class_count()) {
            return Err(Fault::new(Cause::UnknownClass, 0));
        }
        Ok(Playback {
            grammar,
            symbols,
            cursor: Cursor::new(filed, pattern.entry()),
        })
    }

    // Hands the next item to the sink, and tells what it was; none when the end mark has been handed over already.
    // It refuses with 11 where the bits are no allowed walk over the symbols, and so does each later call; a refusal of the sink passes, and the
    // item is still the next one. The place is the count of symbols read. With each item less is ahead, so that a loop of calls ends.
    // Inlined: a loop over the items calls it for each, and a call costs a fifth of a replay.
    #[inline(always)]
    pub fn next<K: Sink>(&mut self, sink: &mut K) -> Result<Option<Played>, Fault>
        ensures plays { Plays (A.Alphabet.meaning self.old.grammar.alphabet.now) (graph_of self.old.grammar.pattern.now) K.Sink.meaning (stand self.old.grammar.pattern.now self.old.cursor self.old.symbols.now) (K.Sink.position sink.old) (K.Sink.stock sink.old) result (stand self.new.grammar.pattern.now self.new.cursor self.new.symbols.now) (K.Sink.position sink.new) (K.Sink.stock sink.new) }
        ensures some { LeftSome (A.Alphabet.meaning self.old.grammar.alphabet.now) (graph_of self.old.grammar.pattern.now) (stand self.old.grammar.pattern.now self.old.cursor self.old.symbols.now) }
        ensures falls { Falls result (ahead (stand self.old.grammar.pattern.now self.old.cursor self.old.symbols.now)) (ahead (stand self.new.grammar.pattern.now self.new.cursor self.new.symbols.now)) }
        ensures grammar { self.new.grammar ≡ self.old.grammar }
        ensures symbols { self.new.symbols.now ≡ self.old.symbols.now }
        ensures bytes { bytes_in self.new.cursor.bits ≡ bytes_in self.old.cursor.bits }
    {
        self.cursor.play_on(&self.grammar, self.symbols, sink)
    }

    // How many symbols are read.
    pub fn read(&self) -> usize
        ensures { result ≡ self.now.cursor.read }
    {
        self.cursor.read
    }
}
