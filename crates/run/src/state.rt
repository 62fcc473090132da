// What a run holds: a reader, what came off at its last call, and the book.
use crate::book::Book;
use crate::finished::Finished;
use crate::giving::give;
use alphabet::Alphabet;
use fault::{Cause, Fault};
use reader::{Buffer, Reader};
use sink::Sink;
use walk::Grammar;

#[derive(Drop)]
pub(crate) struct State<'p, A: Alphabet> {
    pub(crate) reader: Reader<'p, A>,
    pub(crate) out: Buffer,
    pub(crate) book: Book,
}

impl<'p, A: Alphabet> State<'p, A> {
    ghost use Rattle.std.specs.Prelude.{◌≡◌, ℕ, ◌≤◌, List, [], ◌∷◌, map, None};
    ghost use Rattle.reader.specs.Seen.{see, every};
    ghost use Rattle.run.specs.Stages.{told};
    ghost use Rattle.run.specs.Sinks.{standing};
    ghost use Rattle.run.specs.State.{state_pattern, state_alphabet, state_meaning, state_held};
    ghost use Rattle.run.specs.Inner.{Held, Opens, FeedsOpen, Feeds, Closes, CountsLive};

    // What a run holds before any symbol, and how many items the opening handed over.
    pub(crate) fn open<K: Sink>(grammar: Grammar<'p, A>, sink: &mut K) -> (State<'p, A>, u64)
        ensures pattern { state_pattern result.0 ≡ grammar.entry.pattern.now }
        ensures alphabet { state_alphabet result.0 ≡ grammar.entry.alphabet.now }
        ensures opens { Opens (A.Alphabet.meaning grammar.entry.alphabet.now) grammar.entry.pattern.now K.Sink.meaning (standing K.Sink sink.old) result.1 (state_held result.0) (standing K.Sink sink.new) }
        ensures held { Held grammar.entry.pattern.now (state_held result.0) }
    {
        let mut out = Buffer::new();
        let reader = Reader::open(grammar.pattern, grammar.alphabet, &mut out);
        if !grammar.reads_below(grammar.alphabet.class_count()) {
            let book = Book {
                read: 0,
                handed: 0,
                fault: Some(Fault::new(Cause::UnknownClass, 0)),
            };
            return (State { reader, out, book }, 0);
        }
        let given = give(sink, out.items(), 0);
        let book = Book {
            read: 0,
            handed: given.count as u64,
            fault: given.answer.err(),
        };
        (State { reader, out, book }, given.count as u64)
    }

    // One symbol of a piece, in an open run.
    fn step<K: Sink>(&mut self, sink: &mut K, symbol: &A::Symbol) -> Result<(), Fault>
        requires { self.old.book.fault ≡ None }
        ensures pattern { state_pattern self.new ≡ state_pattern self.old }
        ensures alphabet { state_alphabet self.new ≡ state_alphabet self.old }
        ensures answer { result ≡ told self.new.book.fault tt }
        ensures more { self.old.book.handed ≤ self.new.book.handed }
        ensures feeds { FeedsOpen (state_meaning self.old) (state_pattern self.old) K.Sink.meaning (symbol.now ∷ []) (state_held self.old) (standing K.Sink sink.old) (state_held self.new) (standing K.Sink sink.new) }
        ensures seen { FeedsOpen every (state_pattern self.old) K.Sink.meaning (see (state_meaning self.old) symbol.now ∷ []) (state_held self.old) (standing K.Sink sink.old) (state_held self.new) (standing K.Sink sink.new) }
    {
        if self.book.full() {
            return Err(self.book.refuse(Cause::LengthLimit));
        }
        if let Err(stop) = self.reader.read(symbol, &mut self.out) {
            return Err(self.book.refuse(stop.into()));
        }
        let given = give(sink, self.out.items(), self.book.read as u64);
        self.book.count(&given);
        given.answer
    }

    // Feeds a piece, one symbol after another; answers how many items were handed over.
    pub(crate) fn feed<K: Sink>(&mut self, sink: &mut K, piece: &[A::Symbol]) -> Result<u64, Fault>
        ensures pattern { state_pattern self.new ≡ state_pattern self.old }
        ensures alphabet { state_alphabet self.new ≡ state_alphabet self.old }
        ensures feeds { Feeds (state_meaning self.old) (state_pattern self.old) K.Sink.meaning piece.now (state_held self.old) (standing K.Sink sink.old) result (state_held self.new) (standing K.Sink sink.new) }
        ensures seen { Feeds every (state_pattern self.old) K.Sink.meaning (map (see (state_meaning self.old)) piece.now) (state_held self.old) (standing K.Sink sink.old) result (state_held self.new) (standing K.Sink sink.new) }
    {
        if let Some(fault) = self.book.fault {
            return Err(fault);
        }
        let before = self.book.handed;
        for symbol in piece {
            self.step(sink, symbol)?;
        }
        Ok(self.book.since(before))
    }

    // Hands over the rest of the greedy code, with the end mark.
    pub(crate) fn finish<K: Sink>(self, sink: &mut K) -> Result<Finished, Fault>
        ensures closes { Closes (state_meaning self.entry) (state_pattern self.entry) K.Sink.meaning (state_held self.entry) (standing K.Sink sink.old) result (standing K.Sink sink.new) }
        ensures seen { Closes every (state_pattern self.entry) K.Sink.meaning (state_held self.entry) (standing K.Sink sink.old) result (standing K.Sink sink.new) }
    {
        if let Some(fault) = self.book.fault {
            return Err(fault);
        }
        let book = self.book;
        let mut out = self.out;
        let place = book.read as u64;
        if !self.reader.end(&mut out).unwrap_or(false) {
            return Err(Fault::new(Cause::NotAccepted, place));
        }
        let given = give(sink, out.items(), place);
        given.answer?;
        Ok(book.finished(given.count as u64))
    }

    // How many walks are live: a count of the points on which they end. None when the run has failed.
    pub(crate) fn live_walks(&self) -> u32
        ensures live { CountsLive (state_meaning self.now) (state_pattern self.now) (state_held self.now) result }
        ensures seen { CountsLive every (state_pattern self.now) (state_held self.now) result }
    {
        match self.book.fault {
            Some(_) => 0,
            None => self.reader.live_points().count(),
        }
    }
}
