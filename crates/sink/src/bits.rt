// The sink of bits.
ghost use Rattle.std.specs.Prelude.{◌≡◌, []};
ghost use Rattle.sink.specs.BitsMeaning.{bits_meaning, unfilled as unfilled_bits};
ghost use Rattle.sink.specs.BitsState.{bits_position, bits_stock};
ghost use Rattle.sink.specs.Meaning.{nothing};
ghost use Rattle.sink.specs.Unfilled.{StepFor};

use crate::Sink;
use crate::refusing::refused;
use crate::stock::{STOCK_BYTES, Stock};
use crate::unfilled::{Step, Unfilled};
use alphabet::item::END_MARK;
use fault::{Cause, Fault};

// Files the branches taken, eight to a byte, in channel 0.
#[derive(Drop)]
pub struct Bits {
    stock: Stock,
    // None after the end mark.
    unfilled: Option<Unfilled>,
}

impl Bits {
    // A fresh sink: no bit yet, nothing in stock.
    pub fn new() -> Bits
        ensures position { bits_position result ≡ unfilled_bits [] }
        ensures stock { bits_stock result ≡ nothing }
    {
        Bits {
            stock: Stock::new(),
            unfilled: Some(Unfilled::new()),
        }
    }

    // What the item does to the unfilled byte, or that it is not expected.
    fn step_for(&self, item: u32) -> Result<Step, Fault>
        ensures { StepFor (bits_position self.now) item result }
    {
        match self.unfilled {
            Some(unfilled) if item <= END_MARK => Ok(unfilled.step(item)),
            _ => Err(refused(Cause::NotExpected)),
        }
    }
}

impl Sink for Bits {
    ghost meaning = { bits_meaning };

    ghost position = { bits_position };

    ghost stock = { bits_stock };

    fn would(&self, item: u32) -> Result<(), Fault> {
        let step = self.step_for(item)?;
        if step.byte.is_some() && self.stock.len() >= STOCK_BYTES {
            return Err(refused(Cause::ChannelFull));
        }
        Ok(())
    }

    fn take(&mut self, item: u32) -> Result<(), Fault> {
        let step = self.step_for(item)?;
        if let Some(byte) = step.byte {
            self.stock.push(byte)?;
        }
        self.unfilled = step.after;
        Ok(())
    }

    fn pour(&mut self, channel: u32, buffer: &mut [u8]) -> Result<usize, Fault> {
        self.stock.pour_channel(channel, buffer)
    }
}
