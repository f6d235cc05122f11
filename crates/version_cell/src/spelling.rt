//! The 151 words for which those of a cell stand.
ghost use Rattle.std.specs.Prelude.{◌≡◌, ◌≤◌, ◌++◌, slice_range, take};
ghost use Rattle.row_words.specs.Shapes.{shape_of};
ghost use Rattle.version_cell.specs.Rule.{spell};
ghost use Rattle.version_cell.specs.Spellings.{words_of};
ghost use Rattle.version_cell.specs.Widths.{row_width};

use dataset_meta::Meta;
use row_words::{Row, shape};

/// The 151 words of a history: its length, how many numbers are given, the terms, and the last row.
#[derive(Clone, Copy)]
pub(crate) struct Spelling<'a> {
    pub(crate) version: u64,
    pub(crate) count: u64,
    pub(crate) terms: &'a [u64; 24],
    pub(crate) row: &'a Row,
}

#[inline(always)]
pub(crate) fn spelled<'a>(
    version: u64,
    count: u64,
    row: &'a Row,
    terms: &'a [u64; 24],
) -> Spelling<'a>
    ensures { words_of result ≡ spell version count row.now.words terms.now }
{
    Spelling {
        version,
        count,
        terms,
        row,
    }
}

impl Spelling<'_> {
    /// The first of the words.
    #[inline(always)]
    pub(crate) fn first<const N: usize>(&self) -> [u64; N]
        requires wide { 26 ≤ N }
        requires small { N ≤ 151 }
        ensures { result ≡ take N (words_of self.now) }
    {
        let Spelling { terms, row, .. } = *self;
        let mut first = [0u64; N];
        let words = &mut first[..];
        words[0] = self.version;
        words[1] = self.count;
        words[2..26].copy_from_slice(terms);
        words[26..].copy_from_slice(&row.words[..N - 26]);
        first
    }
}

#[inline(always)]
pub(crate) fn row_in(words: &[u64; 151]) -> Row
    ensures { result.words ≡ slice_range words.now 26 151 }
{
    let mut row = [0u64; 125];
    row.copy_from_slice(&words[26..]);
    Row { words: row }
}

// The quotas, and behind them the shape of the meta.
pub(crate) fn terms_for(quotas: &[u64; 8], meta: &Meta) -> [u64; 24]
    ensures { result ≡ quotas.now ++ shape_of meta.now }
{
    let mut terms = [0u64; 24];
    terms[..8].copy_from_slice(quotas);
    terms[8..].copy_from_slice(&shape(meta));
    terms
}

// How many words of a row aren't always 0.
pub(crate) fn words_of_rows(meta: &Meta) -> u32
    ensures words { result ≡ row_width meta.now }
    ensures narrow { result ≤ 125 }
{
    let words = meta.words();
    if meta.quality() {
        words
    } else {
        meta.value_words()
    }
}
