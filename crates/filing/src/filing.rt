// An input read into a fresh sink of bits and a fresh sink of text.
ghost use Rattle.std.specs.Prelude.{true, Some};
ghost use Rattle.run.specs.Performed.{Reads};
ghost use Rattle.filing.specs.Filed.{bits_and_text, fresh, standing_of, FilesGreedy};

use alphabet::Alphabet;
use fault::Fault;
use pattern::Pattern;
use run::{Answer, Call, Finished, perform};
use sink::{Bits, Pair};
use text::{Manner, Text};

// A reading that is over: the sinks, of which what was not drawn may still be poured, how many items the opening handed over, and the finish's answer.
#[derive(Drop)]
pub struct Filed<'p> {
    pub sinks: Pair<Bits, Text<'p>>,
    pub opened: u64,
    pub finished: Result<Finished, Fault>,
}

// Reads into fresh bits and text: opens a run, makes the calls one after another, and finishes. Channel 0 has the bits and channel 1 the text.
// The answers of the calls stand in the log, as far as it reaches; a pour writes to the buffer.
// If the finish is answered, what was drawn from each channel and what it still holds are the greedy walk's bits and text.
pub fn file<'p, A: Alphabet>(
    pattern: &'p Pattern,
    alphabet: &'p A,
    manner: Manner,
    calls: &[Call<'_, A::Symbol>],
    log: &mut [Answer],
    buffer: &mut [u8],
) -> Filed<'p>
    ensures reads { Reads (A.Alphabet.meaning alphabet.now) pattern.now bits_and_text (fresh pattern.now manner) calls.now log.old buffer.old true result.opened (Some result.finished) (standing_of result.sinks) log.new buffer.new }
    ensures files { FilesGreedy (A.Alphabet.meaning alphabet.now) pattern.now manner calls.now log.old buffer.old result.opened result.finished (standing_of result.sinks) log.new buffer.new }
{
    let mut sinks = Pair {
        first: Bits::new(),
        second: Text::new(pattern, manner),
    };
    let (opened, Some(finished)) = perform(pattern, alphabet, &mut sinks, calls, log, buffer, true)
    else {
        unreachable()
    };
    Filed {
        sinks,
        opened,
        finished,
    }
}
