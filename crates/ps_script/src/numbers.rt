//! Numbers in lines.
ghost use Rattle.std.specs.Prelude.{◌≡◌, ◌≤◌, ◌<◌, ◌^◌, IfSome, is_some};
ghost use Rattle.ps_script.specs.Numbers.{number_within, is_number, number_at};

use config_tables::number_spelled;

/// The number that a word spells, where it is in the range.
#[tactic(auto, unfolding(crate::specs::Numbers::number_within))]
pub(crate) fn number_within(word: &[u8], least: u64, most: u64) -> Option<u64>
    ensures number { result ≡ number_within least most word.now }
    ensures bound { IfSome result (λ n. n ≤ most) }
{
    match number_spelled(word, most) {
        Some(n) => if least <= n { Some(n) } else { None },
        None => None,
    }
}

pub(crate) fn is_number(word: &[u8], least: u64, most: u64) -> bool
    ensures { result ≡ is_number least most word.now }
{
    number_within(word, least, most).is_some()
}

/// The number, where the word spells one in the range, else 0.
pub(crate) fn number_at(word: &[u8], least: u64, most: u64) -> u64
    ensures number { result ≡ number_at least most word.now }
    ensures bound { result ≤ most }
{
    match number_within(word, least, most) {
        Some(n) => n,
        None => 0,
    }
}
