// The bytes of one channel that wait to be poured.
ghost use Rattle.std.specs.Prelude.{◌≡◌, ◌+◌, ◌≤◌, ◌==◌, [], ◌∷◌, ◌++◌, length, is_ok, if◌then◌else◌, Ok, Err, nat_le, nat_lt};
ghost use Rattle.fault.specs.declared.cause.Cause.TheVariants.{ChannelFull, NoChannel, ShortBuffer};
ghost use Rattle.sink.specs.Limits.{stock_bytes};
ghost use Rattle.sink.specs.Meaning.{sink_fault, fronted};

use crate::refusing::refused;
use fault::{Cause, Fault};

// How many bytes a stock may hold.
pub const STOCK_BYTES: usize = 4096;

// An array and a length, by a rule of the project: each stock is an array of 4,096 bytes in a plain inner struct.
#[derive(Drop)]
pub struct Stock {
    bytes: [u8; STOCK_BYTES],
    len: usize,
    ghost within: { len ≤ stock_bytes },
}

impl Stock {
    ghost use Rattle.sink.specs.Held.{held};

    // An empty stock.
    pub fn new() -> Stock
        ensures { held result ≡ [] }
    {
        Stock {
            bytes: [0; STOCK_BYTES],
            len: 0,
        }
    }

    // How many bytes it holds.
    pub fn len(&self) -> usize
        ensures { result ≡ length (held self.now) }
    {
        self.len
    }

    // Adds one byte, or refuses it where there is no room.
    pub(crate) fn push(&mut self, byte: u8) -> Result<(), Fault>
        ensures answer { result ≡ (if nat_lt (length (held self.old)) stock_bytes then Ok tt else Err (sink_fault ChannelFull)) }
        ensures after { held self.new ≡ (if is_ok result then held self.old ++ byte ∷ [] else held self.old) }
    {
        self.append(&[byte])
    }

    // Adds all of these bytes, or refuses them where there is no room for all, and then adds none.
    pub fn append(&mut self, more: &[u8]) -> Result<(), Fault>
        ensures answer { result ≡ (if nat_le (length (held self.old) + length more.now) stock_bytes then Ok tt else Err (sink_fault ChannelFull)) }
        ensures after { held self.new ≡ (if is_ok result then held self.old ++ more.now else held self.old) }
    {
        let at = self.len;
        if more.len() > STOCK_BYTES - at {
            return Err(refused(Cause::ChannelFull));
        }
        let to = at + more.len();
        self.bytes[at..to].copy_from_slice(more);
        self.len = to;
        Ok(())
    }

    // Writes what is held to the front of the buffer, and holds nothing then; refuses a buffer that is shorter.
    pub fn pour(&mut self, buffer: &mut [u8]) -> Result<usize, Fault>
        ensures answer { result ≡ (if nat_le (length (held self.old)) (length buffer.old) then Ok (length (held self.old)) else Err (sink_fault ShortBuffer)) }
        ensures after { held self.new ≡ (if is_ok result then [] else held self.old) }
        ensures written { buffer.new ≡ (if is_ok result then fronted (held self.old) buffer.old else buffer.old) }
    {
        let count = self.len;
        if count > buffer.len() {
            return Err(refused(Cause::ShortBuffer));
        }
        buffer[0..count].copy_from_slice(&self.bytes[0..count]);
        self.len = 0;
        Ok(count)
    }

    // The same for a sink whose only channel, number 0, is this stock; refuses any other channel.
    pub fn pour_channel(&mut self, channel: u32, buffer: &mut [u8]) -> Result<usize, Fault>
        ensures answer { result ≡ (if channel == 0 then (if nat_le (length (held self.old)) (length buffer.old) then Ok (length (held self.old)) else Err (sink_fault ShortBuffer)) else Err (sink_fault NoChannel)) }
        ensures after { held self.new ≡ (if is_ok result then [] else held self.old) }
        ensures written { buffer.new ≡ (if is_ok result then fronted (held self.old) buffer.old else buffer.old) }
    {
        if channel != 0 {
            return Err(refused(Cause::NoChannel));
        }
        self.pour(buffer)
    }
}
