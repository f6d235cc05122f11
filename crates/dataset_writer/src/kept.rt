//! The frame that a writer keeps, written over in place. Frames of one kind follow each other mostly, and then no more words are
//! written than are used.
ghost use Rattle.std.specs.Prelude.{◌≡◌, ◌≤◌};
ghost use Rattle.dataset_meta.specs.Rows.{differs};
ghost use Rattle.row_words.specs.declared.patch.Patch.{Patch as PatchValue};
ghost use Rattle.row_words.specs.Belonging.{Belongs, row_in};
ghost use Rattle.row_words.specs.Patches.{IsPatchOf, patch_in};
ghost use Rattle.key_delta.specs.Fronts.{HasZerosBehind};
ghost use Rattle.dataset_writer.specs.Kinds.{words_of_kind};

use dataset_meta::Meta;
use frame_codec::FrameKind;
use key_delta::{clear_front, copy_front, mark_changes};
use row_words::{Patch, Row};

/// Makes what a frame is a key frame of this row.
pub(crate) fn make_whole(kind: &mut FrameKind, row: &Row, used: u32)
    requires used { used ≤ 125 }
    requires kind { HasZerosBehind used (words_of_kind kind.old) }
    requires row { HasZerosBehind used row.now.words }
    ensures { kind.new ≡ FrameKind.Whole row.now }
{
    if !matches!(kind, FrameKind::Whole(_)) {
        *kind = FrameKind::Whole(Row::opening());
    }
    match kind {
        FrameKind::Whole(kept) => copy_front(row, used, kept),
        _ => unreachable!(),
    }
}

/// Makes what a frame is a delta frame of what differs between two rows.
pub(crate) fn make_change(kind: &mut FrameKind, meta: &Meta, old: &Row, new: &Row, used: u32)
    requires used { used ≤ 125 }
    requires kind { HasZerosBehind used (words_of_kind kind.old) }
    requires old { Belongs meta.now old.now.words }
    requires new { Belongs meta.now new.now.words }
    ensures { (patch : PatchValue) × (kind.new ≡ FrameKind.Change patch)
        × IsPatchOf meta.now patch
        × (patch_in meta.now.fields patch
        ≡ differs (row_in meta.now.fields old.now.words) (row_in meta.now.fields new.now.words)) }
{
    prove!(!meta.fields().is_empty());
    match kind {
        FrameKind::Change(patch) => clear_front(patch, used),
        _ => *kind = FrameKind::Change(Patch::empty()),
    }
    match kind {
        FrameKind::Change(patch) => mark_changes(meta, old, new, patch),
        _ => unreachable!(),
    }
}
