// 4,096 bits in 64 words, a bit for each offset of a message.

ghost use Rattle.std.specs.Prelude.{◌≡◌, ℕ, ◌*◌, ◌+◌, ◌<◌, ◌≤◌, ◌||◌, true, false};
ghost use Rattle.std.specs.Int.{bit_at};
ghost use Rattle.std.specs.List.{list_all, range_with_len};
ghost use Rattle.chunker.specs.Cover.{has_offset, is_between};

// Sets the bits of the offsets from `first` up to `end`: of the rest of the first word, of whole words, and of the
// begin of the last.
pub(crate) fn mark(words: &mut [u64; 64], first: usize, end: usize)
    requires some { first < end }
    requires within { end ≤ 4096 }
    ensures { (x : ℕ)
        → has_offset words.new x ≡ (is_between first end x || has_offset words.old x) }
{
    let start = first / 64;
    let last = (end - 1) / 64;
    if start == last {
        mark_in_word(words, start, first % 64, (end - 1) % 64);
        return;
    }
    mark_in_word(words, start, first % 64, 63);
    for block in start + 1..last {
        words[block] = u64::MAX;
    }
    mark_in_word(words, last, 0, (end - 1) % 64);
}

// Whether the bits of all offsets below `total` are set.
pub(crate) fn is_full(words: &[u64; 64], total: usize) -> bool
    requires { total ≤ 4096 }
    ensures { result ≡ list_all (has_offset words.now) (range_with_len 0 total) }
{
    let whole = total / 64;
    for word in &words[..whole] {
        if *word != u64::MAX {
            return false;
        }
    }
    total % 64 == 0 || has_bits(words[whole], total % 64 - 1)
}

// Sets the bits from `low` to `high` of a word.
#[inline(always)]
fn mark_in_word(words: &mut [u64; 64], block: usize, low: usize, high: usize)
    requires block_in { block < 64 }
    requires ordered { low ≤ high }
    requires high_bit { high < 64 }
    ensures { (x : ℕ) → has_offset words.new x
        ≡ (is_between (64 * block + low) (64 * block + high + 1) x || has_offset words.old x) }
{
    words[block] |= bits(low, high);
}

// A word's bits from `low` to `high`.
#[inline(always)]
fn bits(low: usize, high: usize) -> u64
    requires ordered { low ≤ high }
    requires high_bit { high < 64 }
    ensures inside { (i : ℕ) → low ≤ i → i ≤ high → bit_at result i ≡ 1 }
    ensures below { (i : ℕ) → i < low → bit_at result i ≡ 0 }
    ensures above { (i : ℕ) → high < i → bit_at result i ≡ 0 }
{
    u64::MAX << low & u64::MAX >> (63 - high)
}

// Whether all bits of a word up to `high` are set.
#[inline(always)]
fn has_bits(word: u64, high: usize) -> bool
    requires { high < 64 }
    ensures yes { result ≡ true → (i : ℕ) → i ≤ high → bit_at word i ≡ 1 }
    ensures no { ((i : ℕ) → i ≤ high → bit_at word i ≡ 1) → result ≡ true }
{
    let mask = bits(0, high);
    word & mask == mask
}
