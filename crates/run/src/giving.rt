// Items handed to a sink for a run.
ghost use Rattle.run.specs.Sinks.{standing};
ghost use Rattle.run.specs.Giving.{Gives};

use sink::{Handed, Sink, hand_over};

// Hands the items to the sink in turn, up to the first that it refuses. A refusal has the run's place, which the sink does not know.
pub(crate) fn give<K: Sink>(sink: &mut K, items: &[u32], place: u64) -> Handed
    ensures { Gives K.Sink.meaning (standing K.Sink sink.old) items.now place result.count result.answer (standing K.Sink sink.new) }
{
    let Handed { count, answer } = hand_over(sink, items);
    Handed {
        count,
        answer: answer.map_err(|fault| fault.at(place)),
    }
}
