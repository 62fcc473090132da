// Laws of filed readings, each the contract of a function.
ghost use Rattle.filing.specs.Laws.{NothingLost};
ghost use Rattle.filing.specs.Filed.{ReadingReplayed, CutFree};

use alphabet::Alphabet;
use pattern::Pattern;
use sink::Sink;

// Between a run and what is poured of its sink nothing is lost, doubled or moved, for every alphabet, pattern, sink and list of calls, refused ones too.
pub fn nothing_is_lost<A: Alphabet, K: Sink>()
    ensures { (alphabet : A) (pattern : Pattern) → NothingLost (A.Alphabet.meaning alphabet) pattern K.Sink.meaning }
{}

// An accepted reading into fresh bits and text files the greedy walk, and its bits are replayed to the same items into any sink.
pub fn reading_is_replayed<A: Alphabet, K: Sink>()
    ensures { (alphabet : A) (pattern : Pattern) → ReadingReplayed (A.Alphabet.meaning alphabet) pattern K.Sink.meaning }
{}

// What accepted readings of the same symbols file does not depend on how the input was cut into feeds, nor on when the sinks were poured.
pub fn cutting_is_free<A: Alphabet>()
    ensures { (alphabet : A) (pattern : Pattern) → CutFree (A.Alphabet.meaning alphabet) pattern }
{}
