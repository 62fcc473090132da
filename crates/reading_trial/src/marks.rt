// A sink that writes a mark for each item, and takes as few items as is asked for.
ghost use Rattle.std.specs.Prelude.{◌≡◌, ◌-◌, length};
ghost use Rattle.sink.specs.Held.{held};
ghost use Rattle.sink.specs.Limits.{stock_bytes};
ghost use Rattle.reading_trial.specs.Marks.{mark_of, marks_meaning, marks_stock};

use alphabet::item::{END_MARK, FIRST, FIRST_READ, SECOND};
use fault::{Cause, Fault};
use sink::{STOCK_BYTES, Sink, Stock, refused};
use std::alloc::{AllocError, Global};

// Expects `left` items more, and marks each by a byte in channel 0, behind those that filled its stock at first.
#[derive(Drop)]
pub(crate) struct Marks {
    left: u32,
    filled: usize,
    stock: Stock,
}

// The byte of an item: `<` for a first branch, `>` for a second, `.` for the end mark, and for a read the low byte of the symbol's number.
fn mark(item: u32) -> u8
    ensures { result ≡ mark_of item }
{
    match item {
        FIRST => b'<',
        SECOND => b'>',
        END_MARK => b'.',
        read => (read.saturating_sub(FIRST_READ) % 256) as u8,
    }
}

impl Marks {
    // Expects so many items, and has room for so many marks: the rest of its stock is filled already.
    pub(crate) fn new(left: u32, room: usize) -> Marks
        ensures left { result.left ≡ left }
        ensures filled { length (held result.stock) ≡ stock_bytes - room }
    {
        let mut stock = Stock::new();
        let filling = [b'#'; STOCK_BYTES];
        if room < STOCK_BYTES {
            let _ = stock.append(&filling[room..STOCK_BYTES]);
        }
        Marks {
            left,
            filled: stock.len(),
            stock,
        }
    }

    // Pours the marks: those of the items that were taken.
    pub(crate) fn taken(&mut self, heap: Global) -> Result<String, AllocError> {
        let mut buffer = [0u8; STOCK_BYTES];
        let count = self.stock.pour(&mut buffer).unwrap_or(0);
        String::from_utf8_lossy(heap, buffer.get(self.filled..count).unwrap_or(&[]))
    }
}

impl Sink for Marks {
    ghost meaning = { marks_meaning };

    ghost position = { λ s. s.left };

    ghost stock = { marks_stock };

    fn would(&self, _item: u32) -> Result<(), Fault> {
        if self.left == 0 {
            return Err(refused(Cause::NotExpected));
        }
        if self.stock.len() >= STOCK_BYTES {
            return Err(refused(Cause::ChannelFull));
        }
        Ok(())
    }

    fn take(&mut self, item: u32) -> Result<(), Fault> {
        if self.left == 0 {
            return Err(refused(Cause::NotExpected));
        }
        self.stock.append(&[mark(item)])?;
        self.left -= 1;
        Ok(())
    }

    fn pour(&mut self, channel: u32, buffer: &mut [u8]) -> Result<usize, Fault> {
        self.stock.pour_channel(channel, buffer)
    }
}
