//! Numbers, as they are spelled.
ghost use Rattle.std.specs.Prelude.{◌≡◌, ◌≤◌, IfSome};
ghost use Rattle.config_tables.specs.Texts.{number_spelled};

use value_texts::decimal_number;

/// The number of at most `most` that the digits spell. A sign, a leading zero and a space are
/// refused.
pub fn number_spelled(digits: &[u8], most: u64) -> Option<u64>
    ensures number { result ≡ number_spelled most digits.now }
    ensures bound { IfSome result (λ n. n ≤ most) }
{
    match decimal_number(digits) {
        Some(n) => { if n <= most { Some(n) } else { None } }
        None => None,
    }
}
