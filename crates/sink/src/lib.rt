// Sinks: where the items of a code go, and what is written of them.
#![tactic(auto)]

ghost use Rattle.std.specs.Prelude.{◌≡◌, length, is_ok, if◌then◌else◌};
ghost use Rattle.sink.specs.Meaning.{Meaning, Stocks, take_answer, grown, pour_answer, emptied, fronted};

use fault::Fault;

mod bits;
mod handing;
pub mod laws;
mod pair;
mod refusing;
mod stock;
mod unfilled;
mod writing;

pub use bits::Bits;
pub use handing::{Handed, hand_over};
pub use pair::Pair;
pub use refusing::refused;
pub use stock::{STOCK_BYTES, Stock};
pub use writing::{file_bits, hand_and_pour};

// A sink takes the items of a code one after another. It stands at a position, and has for each of its channels a stock of bytes that
// waits to be poured. Each call is told by the sink's meaning alone; a refusal changes nothing, and has the place 0.
pub trait Sink {
    // What the kind of sink means: positions, channels, limits, and what an item does.
    ghost meaning: { Meaning };

    // Where this sink stands.
    ghost position: { Self → meaning.Position };

    // What each channel of this sink holds.
    ghost stock: { Self → Stocks };

    // What taking the item would answer.
    fn would(&self, item: u32) -> Result<(), Fault>
        ensures { result ≡ take_answer meaning (position self.now) (stock self.now) item };

    // Takes the item, or refuses it and changes nothing.
    fn take(&mut self, item: u32) -> Result<(), Fault>
        ensures answer { result ≡ take_answer meaning (position self.old) (stock self.old) item }
        ensures moved { position self.new ≡ (if is_ok result then meaning.next (position self.old) item else position self.old) }
        ensures stocked { stock self.new ≡ (if is_ok result then grown meaning (position self.old) (stock self.old) item else stock self.old) };

    // Writes the channel's stock to the front of the buffer, empties that stock and answers how many bytes it was.
    fn pour(&mut self, channel: u32, buffer: &mut [u8]) -> Result<usize, Fault>
        ensures answer { result ≡ pour_answer meaning (stock self.old) channel (length buffer.old) }
        ensures unmoved { position self.new ≡ position self.old }
        ensures stocked { stock self.new ≡ (if is_ok result then emptied (stock self.old) channel else stock self.old) }
        ensures written { buffer.new ≡ (if is_ok result then fronted (stock self.old channel) buffer.old else buffer.old) };
}
