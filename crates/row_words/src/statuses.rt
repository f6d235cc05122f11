//! Statuses, two to a word, the first in the lower half.
ghost use Rattle.std.specs.Prelude.{◌≡◌, ◌+◌, ◌/◌, ◌%◌, ◌^◌, ◌<◌, ◌≤◌, ◌++◌, length, take, drop, slice_index, slice_set};
ghost use Rattle.dataset_meta.specs.Metas.{value_words};
ghost use Rattle.row_words.specs.Digits.{from_digits, digits_of, grouped};
ghost use Rattle.row_words.specs.Belonging.{statuses_in};

use dataset_meta::Meta;

const HALF: u64 = 0x1_0000_0000;

/// Which word has the status of the field at this index.
#[inline(always)]
pub(crate) fn status_place(meta: &Meta, index: u8) -> usize
    requires { index < length meta.now.fields }
    ensures place { result ≡ value_words meta.now.fields + index / 2 }
    ensures within { result < 125 }
{
    prove!(usize::from(index) < meta.fields().len());
    meta.value_words() as usize + usize::from(index / 2)
}

/// The status of the field at this index, in its word.
#[inline(always)]
pub(crate) fn status_in(word: u64, index: u8) -> u32
    ensures { result ≡ slice_index (digits_of (2 ^ 32) 2 word) (index % 2) }
{
    if index % 2 == 0 {
        (word % HALF) as u32
    } else {
        (word / HALF) as u32
    }
}

/// Its word with another status there.
#[inline(always)]
pub(crate) fn with_status(word: u64, index: u8, status: u32) -> u64
    ensures { result
        ≡ from_digits (2 ^ 32) (slice_set (digits_of (2 ^ 32) 2 word) (index % 2) status) }
{
    if index % 2 == 0 {
        word - word % HALF + u64::from(status)
    } else {
        word % HALF + HALF * u64::from(status)
    }
}

/// Writes the words of the first statuses, so many, over the front of `to`.
pub(crate) fn cut_statuses(to: &mut [u64], from: &[u64], count: usize)
    requires to { (count + 1) / 2 ≤ length to.old }
    requires from { (count + 1) / 2 ≤ length from.now }
    ensures { to.new ≡ grouped (2 ^ 32) 2 ((count + 1) / 2)
        (take count (statuses_in from.now)) ++ drop ((count + 1) / 2) to.old }
{
    let words = (count + 1) / 2;
    to[..words].copy_from_slice(&from[..words]);
    if count % 2 == 1 {
        to[words - 1] %= HALF;
    }
}
