//! The number of a load.
ghost use Rattle.std.specs.Prelude.{◌≡◌, ◌≤◌, IfSome};
ghost use Rattle.cmd_load.specs.Numbers.{load_number};

use config_tables::number_spelled;

/// The least that may be loaded.
const LEAST: u64 = 1;

/// The most: 32,768 writes and 4,096 ticks.
const MOST: u64 = 1024;

/// The number that the word spells: 1 to 1024, in decimal digits without a leading zero. No other word spells one.
#[tactic(auto, unfolding(ps_script::specs::Numbers::number_within))]
pub fn load_number(word: &[u8]) -> Option<u32>
    ensures number { result ≡ load_number word.now }
    ensures bounds { IfSome result (λ n. (1 ≤ n) × (n ≤ 1024)) }
{
    match number_spelled(word, MOST) {
        Some(n) => if LEAST <= n { Some(n as u32) } else { None },
        None => None,
    }
}
