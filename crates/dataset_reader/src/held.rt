//! The words of the row that a reader holds, written over in place, no further than they are used.
ghost use Rattle.std.specs.Prelude.{◌≡◌, ◌≤◌};
ghost use Rattle.dataset_meta.specs.Rows.{patched};
ghost use Rattle.row_words.specs.Belonging.{Belongs, row_in};
ghost use Rattle.row_words.specs.Patches.{IsPatchOf, patch_in};
ghost use Rattle.key_delta.specs.Fronts.{HasZerosBehind, HasZerosBehind-prop};

use dataset_meta::Meta;
use key_delta::{copy_front, wider};
use row_words::{Patch, Row};

#[derive(Drop)]
pub(crate) struct Held {
    row: Row,
    // Behind so many words the row has zeros: no more of them is ever written.
    used: u32,
    ghost narrow: { used ≤ 125 },
    ghost zeros: { HasZerosBehind used row.words } by { HasZerosBehind-prop used row.words },
}

impl Held {
    pub fn new() -> Held {
        Held {
            row: Row::opening(),
            used: 0,
        }
    }

    pub fn row(&self) -> &Row
        ensures { result.now ≡ self.now.row }
    {
        &self.row
    }

    /// Holds this row of the meta in place of the one before, which may be of any meta.
    pub fn hold(&mut self, meta: &Meta, row: &Row)
        requires { Belongs meta.now row.now.words }
        ensures { self.new.row ≡ row.now }
    {
        self.used = wider(self.used, meta);
        copy_front(row, self.used, &mut self.row);
    }

    /// Lays a patch of the meta into the row.
    pub fn lay(&mut self, meta: &Meta, patch: &Patch)
        requires of { IsPatchOf meta.now patch.now }
        requires belongs { Belongs meta.now self.old.row.words }
        ensures belongs { Belongs meta.now self.new.row.words }
        ensures patched { row_in meta.now.fields self.new.row.words
            ≡ patched (row_in meta.now.fields self.old.row.words)
            (patch_in meta.now.fields patch.now) }
    {
        self.used = wider(self.used, meta);
        patch.lay(meta, &mut self.row);
    }
}
