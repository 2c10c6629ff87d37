//! A number in a word.

ghost use Rattle.std.specs.Prelude.{◌≡◌, ◌≢◌, ℕ, ◌^◌, ◌<◌, ◌≤◌, decimal, IfSome, IfNone};

/// The number that a word has the decimal digits of, with no sign and no leading zero, where it fits.
pub(crate) fn number_in(word: &str) -> Option<u64>
    ensures some { IfSome result (λ n. word.now ≡ decimal n) }
    ensures none { IfNone result ((n : ℕ) → n < 2 ^ 64 → word.now ≢ decimal n) }
{
    let bytes = word.as_bytes();
    if bytes.is_empty() || bytes[0] < b'0' || (bytes[0] == b'0' && bytes.len() > 1) {
        return None;
    }
    match word.parse() {
        Ok(n) => Some(n),
        Err(_) => None,
    }
}

/// The number from 1 to `most` that a word has the decimal digits of.
pub(crate) fn number_to(word: &str, most: u32) -> Option<u32>
    ensures some { IfSome result (λ n. (1 ≤ n) × (n ≤ most) × (word.now ≡ decimal n)) }
    ensures none { IfNone result ((n : ℕ) → 1 ≤ n → n ≤ most → word.now ≢ decimal n) }
{
    let n = number_in(word)?;
    if n < 1 || n > u64::from(most) {
        return None;
    }
    Some(n as u32)
}
