// What the words of a case stand for.
ghost use Rattle.std.specs.Prelude.{◌≡◌, ◌++◌, length, ◌==◌, IfOk, OnOk};
ghost use Rattle.std.specs.List.{position_or_len};

use std::alloc::{AllocError, Global};

// The bytes of pairs of hexadecimal digits, parted by space.
pub fn hex_bytes(heap: Global, digits: &str) -> anyhow::Result<Vec<u8>> {
    let mut bytes = Vec::new(heap);
    // In a loop: a chain of results moves each, with room for an error, three times.
    for word in digits.split_whitespace() {
        bytes.push(u8::from_str_radix(word, 16)?)?;
    }
    Ok(bytes)
}

// Adds the bytes of WORD, or of N*WORD those so many times, with no copy of them beside.
pub fn push_word(bytes: &mut Vec<u8>, word: &str) -> anyhow::Result<()>
    ensures once { position_or_len (λ b. b == 42) word.now ≡ length word.now → OnOk result (bytes.new.items ≡ bytes.old.items ++ word.now) }
{
    match word.split_once('*') {
        Some((times, text)) => Ok(push_times(bytes, text.as_bytes(), times.parse::<usize>()?)?),
        None => Ok(bytes.extend_from_slice(word.as_bytes())?),
    }
}

// Adds the bytes so many times.
fn push_all(bytes: &mut Vec<u8>, more: &[u8], times: usize) -> Result<(), AllocError> {
    for _ in 0..times {
        for byte in more {
            bytes.push(*byte)?;
        }
    }
    Ok(())
}

// Adds the bytes so many times. No bytes are added at once, however often.
fn push_times(bytes: &mut Vec<u8>, more: &[u8], times: usize) -> Result<(), AllocError> {
    if more.is_empty() {
        return Ok(());
    }
    // Room as a vector has that grew one by one: with no more than is needed, the next byte would double it.
    let needed = bytes.len().saturating_add(more.len().saturating_mul(times));
    let room = needed.checked_next_power_of_two().unwrap_or(usize::MAX);
    bytes.reserve(room.saturating_sub(bytes.len()))?;
    push_all(bytes, more, times)
}

// The bytes so many times, in no more room than they need.
fn repeated(heap: Global, bytes: &[u8], times: usize) -> Result<Vec<u8>, AllocError> {
    let mut all = Vec::with_capacity(heap, bytes.len().saturating_mul(times))?;
    if !bytes.is_empty() {
        push_all(&mut all, bytes, times)?;
    }
    Ok(all)
}

// WORD or N*WORD: the bytes of the word, or those so many times, in no more room than they need.
pub fn word_bytes(heap: Global, word: &str) -> anyhow::Result<Vec<u8>>
    ensures once { position_or_len (λ b. b == 42) word.now ≡ length word.now → IfOk result (λ bytes. bytes.items ≡ word.now) }
{
    match word.split_once('*') {
        Some((times, text)) => Ok(repeated(heap, text.as_bytes(), times.parse::<usize>()?)?),
        None => Ok(word.as_bytes().to_vec(heap)?),
    }
}
