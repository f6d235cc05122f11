ghost use Rattle.std.specs.Prelude.{◌≡◌, ℕ, ◌+◌, ◌<◌, ◌≤◌, false, List, [], ◌∷◌};
ghost use Rattle.replay_window.specs.Marks.{is_marked};
ghost use Rattle.replay_window.specs.Taken.{seen};

use crate::Seen;
use crate::bits::{clear, is_marked, mark};

/// The numbers taken under one key, as far as they can still be told: the greatest, and a bit for
/// each of the 1,024 numbers up to it.
#[derive(Drop)]
pub struct Window {
    high: u32,
    words: [u64; 16],
}

impl Window {
    ghost use Rattle.replay_window.specs.Window.{IsFresh, IsWindowOf};

    /// The window before any number is taken.
    pub fn new() -> Window
        ensures none_taken { IsWindowOf [] result }
        ensures all_fresh { (n : ℕ) → IsFresh result n }
    {
        Window {
            high: 0,
            words: [0; 16],
        }
    }

    /// Whether `n` may be taken.
    pub fn test(&self, n: u32) -> Seen
        ensures { (taken : List ℕ) → IsWindowOf taken self.now → result ≡ seen taken n }
    {
        if u64::from(n) + 1024 <= u64::from(self.high) {
            return Seen::TooOld { high: self.high };
        }
        if self.high < n {
            return Seen::Fresh;
        }
        if is_marked(&self.words, n) {
            Seen::Repeated
        } else {
            Seen::Fresh
        }
    }

    /// Takes `n`, of which `test` says `Fresh`.
    pub fn take(&mut self, n: u32)
        requires { IsFresh self.old n }
        ensures { (taken : List ℕ) → IsWindowOf taken self.old → IsWindowOf (n ∷ taken) self.new }
    {
        if n > self.high {
            advance(&mut self.words, self.high, n);
            self.high = n;
        }
        mark(&mut self.words, n);
    }
}

// Clears the bits of the numbers between `high` and `to`.
fn advance(words: &mut [u64; 16], high: u32, to: u32)
    requires { high < to }
    ensures cleared { (x : ℕ) → high < x → x < to → to < x + 1024 → is_marked words.new x ≡ false }
    ensures kept { (x : ℕ) → x ≤ high → to < x + 1024
        → is_marked words.new x ≡ is_marked words.old x }
{
    if to - high >= 1024 {
        *words = [0; 16];
    } else if to - high > 1 {
        clear(words, high + 1, to - 1);
    }
}
