//! Decimal numbers as scripts, configurations and commands spell them.
ghost use Rattle.std.specs.Prelude.{◌≡◌, ◌≢◌, ◌<◌, ◌^◌, ℕ, MatchOption};
ghost use Rattle.std.specs.Fmt.{decimal};

use std::str;

/// The number that the digits spell. A sign, a leading zero, a space and a number past 64 bits are
/// refused.
pub fn decimal_number(word: &[u8]) -> Option<u64>
    ensures { MatchOption result
        ((n : ℕ) → n < 2 ^ 64 → word.now ≢ decimal n)
        (λ n. word.now ≡ decimal n) }
{
    if word.is_empty() {
        return None;
    }
    if word[0] == b'+' {
        return None;
    }
    if word[0] == b'0' && word.len() > 1 {
        return None;
    }
    let Ok(text) = str::from_utf8(word) else {
        return None;
    };
    match text.parse::<u64>() {
        Ok(n) => Some(n),
        Err(_) => None,
    }
}
