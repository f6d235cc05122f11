//! Fields that don't differ, passed by words.
ghost use Rattle.std.specs.Prelude.{◌≡◌, ◌≢◌, ◌<◌, ◌≤◌, ◌+◌, true, false, length, take};
ghost use Rattle.dataset_meta.specs.Metas.{start_of};
ghost use Rattle.row_words.specs.Belonging.{Belongs, row_in};
ghost use Rattle.key_delta.specs.Changes.{changes_upto, HaveSameValues, HaveSameStatuses};

use dataset_meta::Meta;
use row_words::Row;

/// Whether any two words differ. Eight are compared at a time, as far as they go.
#[inline(always)]
pub(crate) fn are_apart(one: &[u64], other: &[u64]) -> bool
    requires { length one.now ≡ length other.now }
    ensures apart { result ≡ true → one.now ≢ other.now }
    ensures same { result ≡ false → one.now ≡ other.now }
{
    let mut at = 0;
    while one.len() - at >= 8 {
        if !are_eight_same(one, other, at) {
            return true;
        }
        at += 8;
    }
    are_apart_from(one, other, at)
}

/// The same of words of which those in front of this index are the same.
#[inline(always)]
fn are_apart_from(one: &[u64], other: &[u64], from: usize) -> bool
    requires long { length one.now ≡ length other.now }
    requires from { from ≤ length one.now }
    requires same { take from one.now ≡ take from other.now }
    ensures apart { result ≡ true → one.now ≢ other.now }
    ensures same { result ≡ false → one.now ≡ other.now }
{
    same_behind(one, other, from) < one.len()
}

/// A field before which, from this one on, none differs. It is sought by words; the field itself may be the same.
#[inline(always)]
pub(crate) fn passed(meta: &Meta, old: &Row, new: &Row, from: usize) -> usize
    requires old { Belongs meta.now old.now.words }
    requires new { Belongs meta.now new.now.words }
    requires from { from < length meta.now.fields }
    ensures within { result ≤ length meta.now.fields }
    ensures ahead { from ≤ result }
    ensures same { changes_upto result
        (row_in meta.now.fields old.now.words) (row_in meta.now.fields new.now.words)
        ≡ changes_upto from
        (row_in meta.now.fields old.now.words) (row_in meta.now.fields new.now.words) }
{
    prove!(!meta.fields().is_empty());
    if !meta.quality() {
        return values_passed(meta, old, new, from);
    }
    let place = meta.value_words() as usize + from / 2;
    if old.words[place] != new.words[place] {
        return from;
    }
    let values = values_passed(meta, old, new, from);
    statuses_passed(meta, old, new, from, values)
}

/// A field before which, from this one on, no value differs.
#[inline(always)]
fn values_passed(meta: &Meta, old: &Row, new: &Row, from: usize) -> usize
    requires old { Belongs meta.now old.now.words }
    requires new { Belongs meta.now new.now.words }
    requires from { from < length meta.now.fields }
    ensures within { result ≤ length meta.now.fields }
    ensures ahead { from ≤ result }
    ensures same { HaveSameValues meta.now.fields from result old.now.words new.now.words }
{
    let count = meta.fields().len();
    let begin = usize::from(meta.start(from as u8));
    if old.words[begin] != new.words[begin] {
        return from;
    }
    let end = meta.value_words() as usize;
    let same = same_front(&old.words[begin..end], &new.words[begin..end]);
    if begin + same == end {
        return count;
    }
    field_of(meta, from, same)
}

/// A field before which, from this one on, no status differs, and none behind `to`.
fn statuses_passed(meta: &Meta, old: &Row, new: &Row, from: usize, to: usize) -> usize
    requires old { Belongs meta.now old.now.words }
    requires new { Belongs meta.now new.now.words }
    requires from { from ≤ to }
    requires to { to ≤ length meta.now.fields }
    ensures within { result ≤ to }
    ensures ahead { from ≤ result }
    ensures same { HaveSameStatuses meta.now.fields from result old.now.words new.now.words }
{
    prove!(!meta.fields().is_empty());
    let begin = meta.value_words() as usize + from / 2;
    let end = meta.value_words() as usize + (to + 1) / 2;
    let same = same_front(&old.words[begin..end], &new.words[begin..end]);
    let first = 2 * (from / 2 + same);
    if first < from {
        from
    } else if first < to {
        first
    } else {
        to
    }
}

/// A field that starts no more than so many words behind the one at this index. Where each takes one word it is found at once.
#[inline(always)]
fn field_of(meta: &Meta, from: usize, words: usize) -> usize
    requires from { from < length meta.now.fields }
    requires few { words ≤ 125 }
    ensures within { result < length meta.now.fields }
    ensures ahead { from ≤ result }
    ensures begins { start_of meta.now.fields result ≤ start_of meta.now.fields from + words }
{
    let count = meta.fields().len();
    let word = usize::from(meta.start(from as u8)) + words;
    let guess = from + words;
    if guess < count && usize::from(meta.start(guess as u8)) == word {
        return guess;
    }
    last_before(meta, from, word)
}

/// The last field, from this one on, that starts no later than at this word.
fn last_before(meta: &Meta, from: usize, word: usize) -> usize
    requires from { from < length meta.now.fields }
    requires word { start_of meta.now.fields from ≤ word }
    ensures within { result < length meta.now.fields }
    ensures ahead { from ≤ result }
    ensures begins { start_of meta.now.fields result ≤ word }
{
    let count = meta.fields().len();
    let mut index = from;
    while index + 1 < count {
        if usize::from(meta.start((index + 1) as u8)) > word {
            return index;
        }
        index += 1;
    }
    index
}

/// How many of the first words are the same. Four are compared at a time.
#[inline(always)]
fn same_front(one: &[u64], other: &[u64]) -> usize
    requires { length one.now ≡ length other.now }
    ensures within { result ≤ length one.now }
    ensures same { take result one.now ≡ take result other.now }
{
    same_behind(one, other, 0)
}

/// The same of words of which those in front of this index are the same.
#[inline(always)]
fn same_behind(one: &[u64], other: &[u64], from: usize) -> usize
    requires long { length one.now ≡ length other.now }
    requires from { from ≤ length one.now }
    requires same { take from one.now ≡ take from other.now }
    ensures within { result ≤ length one.now }
    ensures same { take result one.now ≡ take result other.now }
    ensures apart { result < length one.now → one.now ≢ other.now }
{
    for at in same_fours(one, other, from)..one.len() {
        if one[at] != other[at] {
            return at;
        }
    }
    one.len()
}

#[inline(always)]
fn same_fours(one: &[u64], other: &[u64], from: usize) -> usize
    requires long { length one.now ≡ length other.now }
    requires from { from ≤ length one.now }
    requires same { take from one.now ≡ take from other.now }
    ensures within { result ≤ length one.now }
    ensures same { take result one.now ≡ take result other.now }
{
    let mut at = from;
    while one.len() - at >= 4 {
        if !are_four_same(one, other, at) {
            return at;
        }
        at += 4;
    }
    at
}

#[inline(always)]
fn are_eight_same(one: &[u64], other: &[u64], at: usize) -> bool
    requires one { at + 8 ≤ length one.now }
    requires other { at + 8 ≤ length other.now }
    ensures same { result ≡ true → take at one.now ≡ take at other.now
        → take (at + 8) one.now ≡ take (at + 8) other.now }
    ensures apart { result ≡ false → one.now ≢ other.now }
{
    are_four_same(one, other, at) & are_four_same(one, other, at + 4)
}

#[inline(always)]
fn are_four_same(one: &[u64], other: &[u64], at: usize) -> bool
    requires one { at + 4 ≤ length one.now }
    requires other { at + 4 ≤ length other.now }
    ensures same { result ≡ true → take at one.now ≡ take at other.now
        → take (at + 4) one.now ≡ take (at + 4) other.now }
    ensures apart { result ≡ false → one.now ≢ other.now }
{
    (one[at] == other[at])
        & (one[at + 1] == other[at + 1])
        & (one[at + 2] == other[at + 2])
        & (one[at + 3] == other[at + 3])
}
