// Laws of replay, each the contract of a function.
ghost use Rattle.replay.specs.Theorems.{ReplayOne, TraceComputed, TracesSome};
ghost use Rattle.replay.specs.Courses.{PlaybackAgrees, PlaybackComesAlike, BreaksForGood, ItemStays};
ghost use Rattle.replay.specs.Refiling.{Refiles, RefilesBeside, RefilesGreedy, RefilesText};

use alphabet::Alphabet;
use pattern::Pattern;
use sink::Sink;

// A replay has one outcome, for every alphabet, pattern and sink: any bits trace something, and it is what a function computes.
pub fn outcome_is_one<L: Alphabet, S: Sink>()
    ensures some { (alphabet : L) (pattern : Pattern) → TracesSome (L.Alphabet.meaning alphabet) pattern }
    ensures computed { (alphabet : L) → TraceComputed (L.Alphabet.meaning alphabet) }
    ensures one { (alphabet : L) (pattern : Pattern) → ReplayOne (L.Alphabet.meaning alphabet) pattern S.Sink.meaning }
{}

// A replay into a fresh sink of bits files the same bytes again; beside any other sink too, which then has what it makes of the walk's code.
pub fn bits_are_refiled<L: Alphabet, S: Sink>()
    ensures alone { (alphabet : L) (pattern : Pattern) → Refiles (L.Alphabet.meaning alphabet) pattern }
    ensures beside { (alphabet : L) (pattern : Pattern) → RefilesBeside (L.Alphabet.meaning alphabet) pattern S.Sink.meaning }
{}

// The bits of a greedy walk are replayed to its greedy code: beside any sink, and with a sink of text to the walk's text.
pub fn greedy_is_replayed<L: Alphabet, S: Sink>()
    ensures beside { (alphabet : L) (pattern : Pattern) → RefilesGreedy (L.Alphabet.meaning alphabet) pattern S.Sink.meaning }
    ensures text { (alphabet : L) (pattern : Pattern) → RefilesText (L.Alphabet.meaning alphabet) pattern }
{}

// What a playback hands over by one call after another is what a replay traces, for every alphabet, pattern and sink, whatever is poured between the calls:
// a beginning of it, and all of it once the end mark is handed over. With nothing poured between, it comes to the outcome of a replay.
// A refusal with 11 stands, and an item that the sink refuses is still the next.
pub fn playback_is_replay<L: Alphabet, S: Sink>()
    ensures agrees { (alphabet : L) (pattern : Pattern) → PlaybackAgrees (L.Alphabet.meaning alphabet) pattern S.Sink.meaning }
    ensures alike { (alphabet : L) (pattern : Pattern) → PlaybackComesAlike (L.Alphabet.meaning alphabet) pattern S.Sink.meaning }
    ensures broken { (alphabet : L) (pattern : Pattern) → BreaksForGood (L.Alphabet.meaning alphabet) pattern S.Sink.meaning }
    ensures item { (alphabet : L) (pattern : Pattern) → ItemStays (L.Alphabet.meaning alphabet) pattern S.Sink.meaning }
{}
