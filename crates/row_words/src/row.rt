//! Rows in words.
ghost use Rattle.std.specs.Prelude.{◌≡◌, replicate};

use crate::reading::value_at;
use crate::statuses::{cut_statuses, status_in, status_place, with_status};
use crate::writing::write_value;
use dataset_meta::Meta;
use ua_values::Value;

/// A row of a data set in words of 64 bits. It stands, for a meta, for a value and a status of each field. The words of the
/// values stand one after another, behind them the statuses, two to a word, and zeros behind those. A Boolean is 0 or 1, a signed
/// number the two's complement of its own width; a Guid is its 16 bytes in two words; a text or a blob is its length in bytes,
/// and then its bytes, eight to a word, with zeros up to its cap. Of eight bytes in a word the first is the lowest, and so is the
/// first of two statuses. So equal words are equal rows.
#[derive(Clone, Copy, Debug, PartialEq, Eq)]
pub struct Row {
    pub words: [u64; 125],
}

impl Row {
    ghost use Rattle.std.specs.Prelude.{◌≡◌, ◌↔◌, ◌<◌, true, IsTrue, List, length, replicate, slice_set};
    ghost use Rattle.std.specs.Bool.{OnTrue, OnFalse};
    ghost use Rattle.std.specs.List.{HoldsAt};
    ghost use Rattle.ua_values.specs.Values.{Fits};
    ghost use Rattle.dataset_meta.specs.declared.field.Field.{Field};
    ghost use Rattle.dataset_meta.specs.DataValues.{IsStatus};
    ghost use Rattle.dataset_meta.specs.Metas.{IsMeta, MetaData, HasGrown};
    ghost use Rattle.dataset_meta.specs.Rows.{FitsAt, opening_row, row_cut};
    ghost use Rattle.row_words.specs.Words.{is_scalar, IsWordOf, scalar_in};
    ghost use Rattle.row_words.specs.Belonging.{Belongs, row_in, cut_words};
    ghost use Rattle.row_words.specs.Setting.{HasValue, HasStatus, with_value, with_status};

    /// Zeros, false and empty texts, each Good, whatever the meta.
    #[inline(always)]
    pub fn opening() -> Row
        ensures zeros { result.words ≡ replicate 125 0 }
        ensures belongs { (meta : MetaData) → IsMeta meta.fields → Belongs meta result.words }
        ensures row { (fields : List Field) → IsMeta fields
            → row_in fields result.words ≡ opening_row fields }
    {
        Row { words: zeros() }
    }

    /// The same of a data set: a row that belongs to its meta.
    #[inline(always)]
    pub fn opening_of(meta: &Meta) -> Row
        ensures belongs { Belongs meta.now result.words }
        ensures row { row_in meta.now.fields result.words ≡ opening_row meta.now.fields }
    {
        let _fields = meta.fields();
        Row::opening()
    }

    /// The value of the field at this index. Of a scalar no more than the one word is read.
    #[inline(always)]
    pub fn field(&self, meta: &Meta, index: u8) -> Value
        requires belongs { Belongs meta.now self.now.words }
        requires index { index < length meta.now.fields }
        ensures { HasValue (row_in meta.now.fields self.now.words) index result }
    {
        let field = &meta.fields()[usize::from(index)];
        let start = usize::from(meta.start(index));
        let end = start + field.words() as usize;
        value_at(field.kind, &self.words[start..end])
    }

    /// Sets the value of the field at this index. Its status stays, and so do the other fields.
    #[inline(always)]
    pub fn set(&mut self, meta: &Meta, index: u8, value: &Value)
        requires belongs { Belongs meta.now self.old.words }
        requires index { index < length meta.now.fields }
        requires fits { HoldsAt (λ field. Fits value.now field.kind field.cap)
            meta.now.fields index }
        ensures belongs { Belongs meta.now self.new.words }
        ensures set { row_in meta.now.fields self.new.words
            ≡ with_value (row_in meta.now.fields self.old.words) index value.now }
    {
        let field = &meta.fields()[usize::from(index)];
        let start = usize::from(meta.start(index));
        let end = start + field.words() as usize;
        write_value(&mut self.words[start..end], field.cap, value);
    }

    /// The status of the field at this index.
    #[inline(always)]
    pub fn status(&self, meta: &Meta, index: u8) -> u32
        requires belongs { Belongs meta.now self.now.words }
        requires index { index < length meta.now.fields }
        ensures { HasStatus (row_in meta.now.fields self.now.words) index result }
    {
        status_in(self.words[status_place(meta, index)], index)
    }

    /// Sets the status of the field at this index. Its value stays, and so do the other fields.
    #[inline(always)]
    pub fn set_status(&mut self, meta: &Meta, index: u8, status: u32)
        requires belongs { Belongs meta.now self.old.words }
        requires index { index < length meta.now.fields }
        requires status { IsStatus meta.now.quality status }
        ensures belongs { Belongs meta.now self.new.words }
        ensures set { row_in meta.now.fields self.new.words
            ≡ with_status (row_in meta.now.fields self.old.words) index status }
    {
        prove!(usize::from(index) < meta.fields().len());
        let place = status_place(meta, index);
        self.words[place] = with_status(self.words[place], index, status);
    }

    /// Sets the value and the status of the field at this index, and leaves the other fields.
    #[inline(always)]
    pub fn set_with_status(&mut self, meta: &Meta, index: u8, value: &Value, status: u32)
        requires belongs { Belongs meta.now self.old.words }
        requires index { index < length meta.now.fields }
        requires fits { HoldsAt (λ field. Fits value.now field.kind field.cap)
            meta.now.fields index }
        requires status { IsStatus meta.now.quality status }
        ensures belongs { Belongs meta.now self.new.words }
        ensures set { row_in meta.now.fields self.new.words
            ≡ slice_set (row_in meta.now.fields self.old.words) index
            (record { value = value.now; status = status }) }
    {
        self.set(meta, index, value);
        if meta.quality() {
            self.set_status(meta, index, status);
        }
    }

    /// Sets the value and the status of the field at this index, where there is a field that may have them, and leaves the other
    /// fields. False, and nothing is set, where there is none (`Meta::fits_at`).
    #[inline(always)]
    pub fn try_set(&mut self, meta: &Meta, index: u8, value: &Value, status: u32) -> bool
        requires { Belongs meta.now self.old.words }
        ensures exact { IsTrue result ↔ FitsAt meta.now index value.now status }
        ensures belongs { Belongs meta.now self.new.words }
        ensures set { OnTrue result (row_in meta.now.fields self.new.words
            ≡ slice_set (row_in meta.now.fields self.old.words) index
            (record { value = value.now; status = status })) }
        ensures unset { OnFalse result (self.new ≡ self.old) }
    {
        let fits = meta.fits_at(index, value, status);
        if fits {
            self.set_with_status(meta, index, value, status);
        }
        fits
    }

    /// The word of the scalar field at this index, which is all that its value takes.
    #[inline(always)]
    pub fn word(&self, meta: &Meta, index: u8) -> u64
        requires belongs { Belongs meta.now self.now.words }
        requires index { index < length meta.now.fields }
        requires scalar { HoldsAt (λ field. is_scalar field.kind ≡ true) meta.now.fields index }
        ensures word { HoldsAt (λ field. IsWordOf field.kind result) meta.now.fields index }
        ensures value { HoldsAt (λ field. HasValue (row_in meta.now.fields self.now.words) index
            (scalar_in field.kind result))
            meta.now.fields index }
    {
        prove!(usize::from(index) < meta.fields().len());
        self.words[usize::from(meta.start(index))]
    }

    /// Sets the value of the scalar field at this index to that with this word. Its status stays, and so do the other fields.
    #[inline(always)]
    pub fn set_word(&mut self, meta: &Meta, index: u8, word: u64)
        requires belongs { Belongs meta.now self.old.words }
        requires index { index < length meta.now.fields }
        requires word { HoldsAt (λ field. IsWordOf field.kind word) meta.now.fields index }
        ensures belongs { Belongs meta.now self.new.words }
        ensures set { HoldsAt (λ field. row_in meta.now.fields self.new.words
            ≡ with_value (row_in meta.now.fields self.old.words) index
            (scalar_in field.kind word)) meta.now.fields index }
    {
        prove!(usize::from(index) < meta.fields().len());
        self.words[usize::from(meta.start(index))] = word;
    }

    /// The row cut to the fields of `short`, the meta of a data set that has grown to `full`.
    pub fn first(&self, full: &Meta, short: &Meta) -> Row
        requires belongs { Belongs full.now self.now.words }
        requires grown { HasGrown short.now full.now }
        ensures belongs { Belongs short.now result.words }
        ensures row { row_in short.now.fields result.words
            ≡ row_cut short.now (row_in full.now.fields self.now.words) }
        ensures words { result.words ≡ cut_words short.now full.now self.now.words }
    {
        prove!(full.fields().len() <= 64);
        let count = short.fields().len();
        let start = short.value_words() as usize;
        let mut row = Row::opening();
        let (values, statuses) = row.words.split_at_mut(start);
        values.copy_from_slice(&self.words[..start]);
        cut_statuses(statuses, &self.words[full.value_words() as usize..], count);
        row
    }
}

#[inline(always)]
fn zeros() -> [u64; 125]
    ensures { result ≡ replicate 125 0 }
{
    [0; 125]
}
