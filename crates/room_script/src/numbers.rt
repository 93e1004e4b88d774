//! Numbers in texts.
ghost use Rattle.std.specs.Prelude.{◌≡◌, ℕ, ◌<◌, ◌↔◌, Some, IsTrue, length, slice_index, position};
ghost use Rattle.room_script.specs.Lines.{is_space};
ghost use Rattle.room_script.specs.Numbers.{IsNumber, IsNumberAfter, IsTwoNumbers};

/// The number that the bytes spell: decimal digits without a sign, and without a leading zero
/// unless it is `0` alone, up to 2^64 - 1. `None` exactly where they spell none.
pub fn number(bytes: &[u8]) -> Option<u64>
    ensures { (n : ℕ) → (result ≡ Some n) ↔ IsNumber bytes.now n }
{
    if bytes.starts_with(b"+") {
        return None;
    }
    if is_padded(bytes) {
        return None;
    }
    match str::from_utf8(bytes) {
        Ok(digits) => digits.parse().ok(),
        Err(_) => None,
    }
}

// Whether a zero stands before other bytes.
fn is_padded(bytes: &[u8]) -> bool
    ensures { IsTrue result ↔ ((1 < length bytes.now) × (slice_index bytes.now 0 ≡ 48)) }
{
    bytes.len() > 1 && bytes[0] == b'0'
}

/// The number after the word, where the bytes are the word and a number.
pub fn number_after(word: &[u8], bytes: &[u8]) -> Option<u64>
    ensures { (n : ℕ) → (result ≡ Some n) ↔ IsNumberAfter word.now bytes.now n }
{
    match bytes.strip_prefix(word) {
        Some(digits) => number(digits),
        None => None,
    }
}

/// The two numbers, where the bytes are two numbers with one space between them.
pub fn two_numbers(bytes: &[u8]) -> Option<(u64, u64)>
    ensures { (a b : ℕ) → (result ≡ Some (a, b)) ↔ IsTwoNumbers bytes.now a b }
{
    let space = first_space(bytes)?;
    let first = number(&bytes[..space])?;
    let second = number(&bytes[space + 1..])?;
    Some((first, second))
}

fn first_space(bytes: &[u8]) -> Option<usize>
    ensures { result ≡ position is_space bytes.now }
{
    bytes.iter().position(|byte| *byte == b' ')
}
