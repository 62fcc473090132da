// A sink that takes so many items and no more. It has no channel.
ghost use Rattle.std.specs.Prelude.{◌≡◌};
ghost use Rattle.sink.specs.Meaning.{nothing};
ghost use Rattle.replay_trial.specs.Few.{few_meaning};

use fault::{Cause, Fault};
use sink::{Sink, refused};

#[derive(Drop)]
pub(crate) struct Few {
    left: u32,
}

impl Few {
    pub(crate) fn new(left: u32) -> Few
        ensures { result.left ≡ left }
    {
        Few { left }
    }
}

impl Sink for Few {
    ghost meaning = { few_meaning };

    ghost position = { λ s. s.left };

    ghost stock = { λ _. nothing };

    fn would(&self, _item: u32) -> Result<(), Fault> {
        if self.left == 0 {
            return Err(refused(Cause::NotExpected));
        }
        Ok(())
    }

    fn take(&mut self, item: u32) -> Result<(), Fault> {
        self.would(item)?;
        self.left -= 1;
        Ok(())
    }

    fn pour(&mut self, _channel: u32, _buffer: &mut [u8]) -> Result<usize, Fault> {
        Err(refused(Cause::NoChannel))
    }
}
