//! Words, and the eight bytes that spell each.
ghost use Rattle.std.specs.Prelude.{◌≡◌, ◌<◌, ◌^◌, ◌+◌, ◌*◌, ◌≤◌, ◌++◌, length, slice_range, IfOk, OnOk, vec_len};
ghost use Rattle.image_reader.specs.Bytes.{word_bytes, spelled, AreWords};
ghost use Rattle.image_reader.specs.Fault.{word_at};

use std::alloc::{AllocError, Global};

/// The number that eight bytes from a place on spell.
#[inline]
pub fn word(bytes: &[u8], place: usize) -> u64
    requires { place + 8 ≤ length bytes.now }
    ensures value { result ≡ word_at bytes.now place }
    ensures fits { result < 2 ^ 64 }
    ensures bytes { word_bytes result ≡ slice_range bytes.now place (place + 8) }
{
    u64::from_le_bytes([
        bytes[place],
        bytes[place + 1],
        bytes[place + 2],
        bytes[place + 3],
        bytes[place + 4],
        bytes[place + 5],
        bytes[place + 6],
        bytes[place + 7],
    ])
}

/// The words that bytes spell.
pub fn words_of(alloc: Global, bytes: &[u8], count: usize) -> Result<Vec<u64>, AllocError>
    requires { length bytes.now ≡ 8 * count }
    ensures spelled { IfOk result (λ words. spelled words.items ≡ bytes.now) }
    ensures count { IfOk result (λ words. vec_len words ≡ count) }
    ensures fit { IfOk result (λ words. AreWords words.items) }
{
    let mut words = Vec::with_capacity(alloc, count)?;
    for i in 0..count {
        words.push(word(bytes, 8 * i))?;
    }
    Ok(words)
}

/// Appends the bytes of words.
pub fn push_words(out: &mut Vec<u8>, words: &[u64]) -> Result<(), AllocError>
    ensures spelled { OnOk result (out.new.items ≡ out.old.items ++ spelled words.now) }
    ensures fit { AreWords words.now }
{
    for word in words {
        out.extend_from_slice(&word.to_le_bytes())?;
    }
    Ok(())
}
