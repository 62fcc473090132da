// Replay.
ghost use Rattle.pattern.specs.Patterns.{entry_of};
ghost use Rattle.walk.specs.Graphs.{graph_of};
ghost use Rattle.replay.specs.Outcome.{Replays};
ghost use Rattle.replay.specs.Theorems.{Walks};

use crate::playback::Playback;
use alphabet::Alphabet;
use fault::Fault;
use pattern::Pattern;
use sink::Sink;

// Walks through the pattern by the filed bits and the symbols, hands the items of the walk to the sink in turn, the end mark last,
// and answers their number. It refuses with 4 where the alphabet lacks a class of the pattern, and with 11 where the bits are no allowed walk
// over the symbols; a refusal of the sink passes. The place is the count of symbols read.
pub fn replay<L: Alphabet, S: Sink>(
    pattern: &Pattern,
    alphabet: &L,
    filed: &[u8],
    symbols: &[L::Symbol],
    sink: &mut S,
) -> Result<u128, Fault>
    ensures outcome { Replays (L.Alphabet.meaning alphabet.now) (graph_of pattern.now) (entry_of pattern.now) filed.now symbols.now S.Sink.meaning (S.Sink.position sink.old) (S.Sink.stock sink.old) result (S.Sink.position sink.new) (S.Sink.stock sink.new) }
    ensures walks { Walks (L.Alphabet.meaning alphabet.now) pattern.now filed.now symbols.now S.Sink.meaning (S.Sink.position sink.old) (S.Sink.stock sink.old) result (S.Sink.position sink.new) (S.Sink.stock sink.new) }
{
    let mut playback = Playback::open(pattern, alphabet, filed, symbols)?;
    // Counted here: an iterator of items would have to hold the sink, and the count of one is a usize.
    let mut items: u128 = 0;
    while playback.next(sink)?.is_some() {
        items += 1;
    }
    Ok(items)
}
