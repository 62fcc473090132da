// A pair of sinks.
ghost use Rattle.std.specs.Prelude.{◌≡◌, ◌%◌, ◌==◌};
ghost use Rattle.sink.specs.PairMeaning.{pair_meaning, pair_stocks};

use crate::Sink;
use fault::{Cause, Fault};

// Two sinks that take each item together, or neither does. Channel 2c is the first's c, and channel 2c + 1 the second's c.
#[derive(Drop)]
pub struct Pair<S, T> {
    pub first: S,
    pub second: T,
}

// Whether a pair's channel is one of its first sink's.
fn of_first(channel: u32) -> bool
    ensures { result ≡ (channel % 2 == 0) }
{
    channel % 2 == 0
}

impl<S: Sink, T: Sink> Sink for Pair<S, T> {
    ghost meaning = { pair_meaning S.Sink.meaning T.Sink.meaning };

    ghost position = { λ s. (S.Sink.position s.first, T.Sink.position s.second) };

    ghost stock = { λ s. pair_stocks (S.Sink.stock s.first) (T.Sink.stock s.second) };

    // That either does not expect the item counts before that either is full.
    fn would(&self, item: u32) -> Result<(), Fault> {
        match (self.first.would(item), self.second.would(item)) {
            (Ok(()), answer) => answer,
            (Err(one), Ok(())) => Err(one),
            (Err(one), Err(other)) => match one.cause {
                Cause::NotExpected => Err(one),
                _ => Err(other),
            },
        }
    }

    fn take(&mut self, item: u32) -> Result<(), Fault> {
        self.would(item)?;
        self.first.take(item)?;
        self.second.take(item)
    }

    fn pour(&mut self, channel: u32, buffer: &mut [u8]) -> Result<usize, Fault> {
        let own = channel / 2;
        if of_first(channel) {
            self.first.pour(own, buffer)
        } else {
            self.second.pour(own, buffer)
        }
    }
}
