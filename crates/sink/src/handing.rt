// Handing a list of items over.
ghost use Rattle.std.specs.Prelude.{◌≡◌, take as front};
ghost use Rattle.sink.specs.Handing.{moved_by, grown_by, taken_count, hand_answer};

use crate::Sink;
use fault::Fault;

// How many items a sink took, and why it took no more, if it did not take all.
#[derive(Drop)]
pub struct Handed {
    pub count: usize,
    pub answer: Result<(), Fault>,
}

// Hands the items to the sink in turn, up to the first that it refuses.
pub fn hand_over<S: Sink>(sink: &mut S, items: &[u32]) -> Handed
    ensures count { result.count ≡ taken_count S.meaning (S.position sink.old) (S.stock sink.old) items.now }
    ensures answer { result.answer ≡ hand_answer S.meaning (S.position sink.old) (S.stock sink.old) items.now }
    ensures moved { S.position sink.new ≡ moved_by S.meaning (S.position sink.old) (front result.count items.now) }
    ensures stocked { S.stock sink.new ≡ grown_by S.meaning (S.position sink.old) (S.stock sink.old) (front result.count items.now) }
{
    for (count, item) in items.iter().enumerate() {
        if let Err(fault) = sink.take(*item) {
            return Handed {
                count,
                answer: Err(fault),
            };
        }
    }
    Handed {
        count: items.len(),
        answer: Ok(()),
    }
}
