//! Patches in words.
ghost use Rattle.std.specs.Prelude.{◌≡◌, ◌↔◌, ◌<◌, IsTrue, List, [], length};
ghost use Rattle.std.specs.Bool.{OnTrue, OnFalse};
ghost use Rattle.std.specs.List.{HoldsAt};
ghost use Rattle.ua_values.specs.Values.{Fits};
ghost use Rattle.dataset_meta.specs.declared.field.Field.{Field};
ghost use Rattle.dataset_meta.specs.DataValues.{IsStatus};
ghost use Rattle.dataset_meta.specs.Metas.{IsMeta, MetaData};
ghost use Rattle.dataset_meta.specs.Rows.{FitsAt, patched, put_in};
ghost use Rattle.row_words.specs.Belonging.{Belongs, row_in};
ghost use Rattle.row_words.specs.Patches.{IsPatchOf, patch_in, patched_words};

use crate::copying::copy_field;
use crate::row::Row;
use dataset_meta::Meta;
use ua_values::Value;

/// Changes of a row. It stands, for a meta, for the fields whose bits of `mask` are set, the first field's lowest, with the
/// values and the statuses that they have in `row`. The words of a field that isn't marked are zero, and so is its status.
#[derive(Clone, Copy, Debug, PartialEq, Eq)]
pub struct Patch {
    pub mask: u64,
    pub row: Row,
}

impl Patch {
    /// No change, whatever the meta.
    pub fn empty() -> Patch
        ensures of { (meta : MetaData) → IsMeta meta.fields → IsPatchOf meta result }
        ensures empty { (fields : List Field) → patch_in fields result ≡ [] }
    {
        Patch {
            mask: 0,
            row: Row::opening(),
        }
    }

    /// The same of a data set: a patch that is one of its meta.
    pub fn empty_of(meta: &Meta) -> Patch
        ensures of { IsPatchOf meta.now result }
        ensures empty { patch_in meta.now.fields result ≡ [] }
    {
        let _fields = meta.fields();
        Patch::empty()
    }

    /// Marks the field at this index, with this value and this status.
    pub fn put(&mut self, meta: &Meta, index: u8, value: &Value, status: u32)
        requires of { IsPatchOf meta.now self.old }
        requires index { index < length meta.now.fields }
        requires fits { HoldsAt (λ field. Fits value.now field.kind field.cap)
            meta.now.fields index }
        requires status { IsStatus meta.now.quality status }
        ensures of { IsPatchOf meta.now self.new }
        ensures put { patch_in meta.now.fields self.new
            ≡ put_in (patch_in meta.now.fields self.old) index
            (record { value = value.now; status = status }) }
    {
        prove!(usize::from(index) < meta.fields().len());
        self.row.set_with_status(meta, index, value, status);
        self.mask |= 1 << index;
    }

    /// Marks the field at this index, with this value and this status, where there is a field that may have them. False, and nothing
    /// is marked, where there is none (`Meta::fits_at`).
    pub fn try_put(&mut self, meta: &Meta, index: u8, value: &Value, status: u32) -> bool
        requires { IsPatchOf meta.now self.old }
        ensures exact { IsTrue result ↔ FitsAt meta.now index value.now status }
        ensures of { IsPatchOf meta.now self.new }
        ensures put { OnTrue result (patch_in meta.now.fields self.new
            ≡ put_in (patch_in meta.now.fields self.old) index
            (record { value = value.now; status = status })) }
        ensures unmarked { OnFalse result (self.new ≡ self.old) }
    {
        let fits = meta.fits_at(index, value, status);
        if fits {
            self.put(meta, index, value, status);
        }
        fits
    }

    /// Marks the field at this index, with the value and the status that it has in a row.
    pub fn mark(&mut self, meta: &Meta, index: u8, row: &Row)
        requires of { IsPatchOf meta.now self.old }
        requires belongs { Belongs meta.now row.now.words }
        requires index { index < length meta.now.fields }
        ensures of { IsPatchOf meta.now self.new }
        ensures put { HoldsAt (λ x. patch_in meta.now.fields self.new
            ≡ put_in (patch_in meta.now.fields self.old) index x)
            (row_in meta.now.fields row.now.words) index }
    {
        prove!(usize::from(index) < meta.fields().len());
        copy_field(meta, index, row, &mut self.row);
        self.mask |= 1 << index;
    }

    /// Gives each marked field of the row the value and the status that the patch has there, and leaves the others.
    pub fn lay(&self, meta: &Meta, row: &mut Row)
        requires of { IsPatchOf meta.now self.now }
        requires belongs { Belongs meta.now row.old.words }
        ensures belongs { Belongs meta.now row.new.words }
        ensures patched { row_in meta.now.fields row.new.words
            ≡ patched (row_in meta.now.fields row.old.words) (patch_in meta.now.fields self.now) }
        ensures words { row.new.words ≡ patched_words meta.now.fields self.now row.old.words }
    {
        let mut left = self.mask;
        while left != 0 {
            let index = left.trailing_zeros();
            copy_field(meta, index as u8, &self.row, row);
            left &= !(1 << index);
        }
    }
}
