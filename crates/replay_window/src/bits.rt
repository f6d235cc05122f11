// 1,024 bits in 16 words, a bit for each number modulo 1,024.

ghost use Rattle.std.specs.Prelude.{◌≡◌, ◌≢◌, ℕ, ◌+◌, ◌/◌, ◌%◌, ◌<◌, ◌≤◌, true, false};
ghost use Rattle.std.specs.Int.{bit_at};
ghost use Rattle.replay_window.specs.Marks.{is_marked};

pub(crate) fn is_marked(words: &[u64; 16], number: u32) -> bool
    ensures { result ≡ is_marked words.now number }
{
    words[(number / 64 % 16) as usize] >> (number % 64) & 1 == 1
}

pub(crate) fn mark(words: &mut [u64; 16], number: u32)
    ensures marked { is_marked words.new number ≡ true }
    ensures others { (x : ℕ) → x % 1024 ≢ number % 1024
        → is_marked words.new x ≡ is_marked words.old x }
{
    words[(number / 64 % 16) as usize] |= 1 << (number % 64);
}

// The word without its bits from `low` to `high`.
fn without(word: u64, low: u32, high: u32) -> u64
    requires low_bit { low < 64 }
    requires high_bit { high < 64 }
    ensures inside { (i : ℕ) → low ≤ i → i ≤ high → bit_at result i ≡ 0 }
    ensures below { (i : ℕ) → i < low → bit_at result i ≡ bit_at word i }
    ensures above { (i : ℕ) → high < i → i < 64 → bit_at result i ≡ bit_at word i }
{
    word & !(u64::MAX << low & u64::MAX >> (63 - high))
}

// Clears the bits of the numbers from `first` to `last`: of whole words between, and of the rest
// of the first word and the begin of the last.
pub(crate) fn clear(words: &mut [u64; 16], first: u32, last: u32)
    requires { first ≤ last }
    ensures cleared { (x : ℕ) → first ≤ x → x ≤ last → is_marked words.new x ≡ false }
    ensures kept { (x : ℕ) → x < first → last < x + 1024
        → is_marked words.new x ≡ is_marked words.old x }
{
    let start = first / 64;
    let end = last / 64;
    if start == end {
        clear_in_word(words, start, first % 64, last % 64);
        return;
    }
    clear_in_word(words, start, first % 64, 63);
    for block in start + 1..end {
        words[(block % 16) as usize] = 0;
    }
    clear_in_word(words, end, 0, last % 64);
}

// Clears the bits from `low` to `high` in the word of a block of 64 numbers.
#[inline(always)]
fn clear_in_word(words: &mut [u64; 16], block: u32, low: u32, high: u32)
    requires low_bit { low < 64 }
    requires high_bit { high < 64 }
    ensures cleared { (x : ℕ) → x / 64 % 16 ≡ block % 16 → low ≤ x % 64 → x % 64 ≤ high
        → is_marked words.new x ≡ false }
    ensures other_words { (x : ℕ) → x / 64 % 16 ≢ block % 16
        → is_marked words.new x ≡ is_marked words.old x }
    ensures below { (x : ℕ) → x % 64 < low → is_marked words.new x ≡ is_marked words.old x }
    ensures above { (x : ℕ) → high < x % 64 → is_marked words.new x ≡ is_marked words.old x }
{
    let word = &mut words[(block % 16) as usize];
    *word = without(*word, low, high);
}
