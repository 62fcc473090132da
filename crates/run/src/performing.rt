// Any list of calls on a run, and the theorem on runs.
ghost use Rattle.std.specs.Prelude.{◌≡◌, ℕ, List};
ghost use Rattle.run.specs.Sinks.{standing};
ghost use Rattle.run.specs.Run.{pattern_of, alphabet_of, meaning_of, held_by};
ghost use Rattle.run.specs.Calls.{Makes, MakesAll};
ghost use Rattle.run.specs.Performed.{Reads};

use crate::calls::{Answer, Call};
use crate::finished::Finished;
use crate::run::Run;
use alphabet::Alphabet;
use fault::Fault;
use pattern::Pattern;
use sink::Sink;

// Makes one call.
fn make<A: Alphabet, K: Sink>(
    run: &mut Run<'_, A>,
    sink: &mut K,
    call: &Call<'_, A::Symbol>,
    buffer: &mut [u8],
) -> Answer
    ensures pattern { pattern_of run.new ≡ pattern_of run.old }
    ensures alphabet { alphabet_of run.new ≡ alphabet_of run.old }
    ensures makes { Makes (meaning_of run.old) (pattern_of run.old) K.Sink.meaning call.now buffer.old (held_by run.old) (standing K.Sink sink.old) result (held_by run.new) (standing K.Sink sink.new) buffer.new }
{
    match call {
        Call::Feed(piece) => Answer::Fed(run.feed(sink, piece)),
        Call::Pour(channel) => Answer::Poured(sink.pour(*channel, buffer)),
    }
}

// Makes the calls one after another. The answers stand in the log, as far as it reaches.
// The calls, the log and the buffer stay apart, as `perform` takes them: a struct of the three would be made here and taken apart in the loop.
fn make_all<A: Alphabet, K: Sink>(
    run: &mut Run<'_, A>,
    sink: &mut K,
    calls: &[Call<'_, A::Symbol>],
    log: &mut [Answer],
    buffer: &mut [u8],
)
    ensures pattern { pattern_of run.new ≡ pattern_of run.old }
    ensures alphabet { alphabet_of run.new ≡ alphabet_of run.old }
    ensures makes { MakesAll (meaning_of run.old) (pattern_of run.old) K.Sink.meaning calls.now log.old buffer.old (held_by run.old) (standing K.Sink sink.old) (held_by run.new) (standing K.Sink sink.new) log.new buffer.new }
{
    for (i, call) in calls.iter().enumerate() {
        let answer = make(run, sink, call, buffer);
        // By an index: after a write through `log.get_mut(i)` or `log.iter_mut()` a proof knows the log's length, but no answer.
        if i < log.len() {
            log[i] = answer;
        }
    }
}

// The theorem on runs. Opens a run, makes the calls one after another, and finishes the run if asked; answers how many items the opening handed over, and the finish's answer, if any.
// The answers of the calls stand in the log, as far as it reaches.
pub fn perform<'p, A: Alphabet, K: Sink>(
    pattern: &'p Pattern,
    alphabet: &'p A,
    sink: &mut K,
    calls: &[Call<'_, A::Symbol>],
    log: &mut [Answer],
    buffer: &mut [u8],
    finish: bool,
) -> (u64, Option<Result<Finished, Fault>>)
    ensures { Reads (A.Alphabet.meaning alphabet.now) pattern.now K.Sink.meaning (standing K.Sink sink.old) calls.now log.old buffer.old finish result.0 result.1 (standing K.Sink sink.new) log.new buffer.new }
{
    let (mut run, opened) = Run::open(pattern, alphabet, sink);
    make_all(&mut run, sink, calls, log, buffer);
    if finish {
        (opened, Some(run.finish(sink)))
    } else {
        (opened, None)
    }
}
