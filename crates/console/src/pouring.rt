// Bits and text, and what is poured of them.
ghost use Rattle.std.specs.Prelude.{◌≡◌, [], ◌++◌, length, OnOk, IfOk};
ghost use Rattle.sink.specs.BitsMeaning.{unfilled};
ghost use Rattle.sink.specs.BitsState.{bits_position, bits_stock};
ghost use Rattle.sink.specs.Meaning.{nothing, emptied};
ghost use Rattle.text.specs.TextState.{start_of, text_position, text_stock};

use anyhow::anyhow;
use pattern::Pattern;
use sink::{Bits, Pair, STOCK_BYTES, Sink};
use std::alloc::{AllocError, Global};
use text::{Manner, Text};

// The channels of a pair of bits and text.
pub const BITS: u32 = 0;

pub const TEXT: u32 = 1;

// Fresh bits and text over a pattern.
pub fn bits_and_text(pattern: &Pattern, manner: Manner) -> Pair<Bits, Text<'_>>
    ensures bits { (bits_position result.first ≡ unfilled []) × (bits_stock result.first ≡ nothing) }
    ensures text { (text_position result.second ≡ start_of pattern.now manner) × (text_stock result.second ≡ nothing) }
{
    Pair {
        first: Bits::new(),
        second: Text::new(pattern, manner),
    }
}

// Pours a channel behind the bytes that came before, and answers how many bytes came. What is lost where it fails is left open.
pub fn pour_behind<S: Sink>(
    sink: &mut S,
    channel: u32,
    buffer: &mut [u8],
    bytes: &mut Vec<u8>,
) -> anyhow::Result<usize>
    ensures behind { OnOk result (bytes.new.items ≡ bytes.old.items ++ S.stock sink.old channel) }
    ensures count { IfOk result (λ n. n ≡ length (S.stock sink.old channel)) }
    ensures emptied { OnOk result (S.stock sink.new ≡ emptied (S.stock sink.old) channel) }
    ensures unmoved { S.position sink.new ≡ S.position sink.old }
{
    let Ok(count) = sink.pour(channel, buffer) else {
        return Err(anyhow!("a pour was refused"));
    };
    bytes.extend_from_slice(&buffer[..count])?;
    Ok(count)
}

// What was poured of bits and text and has not gone further yet.
#[derive(Drop)]
pub struct Poured {
    pub bits: Vec<u8>,
    pub text: Vec<u8>,
    // What a channel is poured into.
    buffer: Vec<u8>,
}

impl Poured {
    // Nothing is poured.
    pub fn new(heap: Global) -> Result<Poured, AllocError>
        ensures { IfOk result (λ p. (p.bits.items ≡ []) × (p.text.items ≡ [])) }
    {
        Ok(Poured {
            bits: Vec::new(heap),
            text: Vec::new(heap),
            buffer: vec![in heap; 0; STOCK_BYTES]?,
        })
    }

    // Pours both channels of a pair of bits and text; answers how many bytes came. What is lost where it fails is left open.
    pub fn pour<S: Sink>(&mut self, sink: &mut S) -> anyhow::Result<usize>
        ensures bits { OnOk result (self.new.bits.items ≡ self.old.bits.items ++ S.stock sink.old 0) }
        ensures text { OnOk result (self.new.text.items ≡ self.old.text.items ++ S.stock sink.old 1) }
        ensures emptied { OnOk result (S.stock sink.new ≡ emptied (emptied (S.stock sink.old) 0) 1) }
        ensures unmoved { S.position sink.new ≡ S.position sink.old }
    {
        let bits = pour_behind(sink, BITS, &mut self.buffer, &mut self.bits)?;
        let text = pour_behind(sink, TEXT, &mut self.buffer, &mut self.text)?;
        Ok(bits.saturating_add(text))
    }
}
