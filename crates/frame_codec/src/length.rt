//! How many bytes a frame takes.
ghost use Rattle.std.specs.Prelude.{◌≡◌, ◌+◌, ◌*◌, ◌==◌, ◌<◌, ◌≤◌, ℕ, List, length, if◌then◌else◌};
ghost use Rattle.std.specs.Int.{bit_at};
ghost use Rattle.std.specs.List.{HoldsAt};
ghost use Rattle.dataset_meta.specs.declared.field.Field.{Field as AnyField};
ghost use Rattle.row_words.specs.Belonging.{Belongs, row_in};
ghost use Rattle.row_words.specs.Patches.{IsPatchOf, patch_in};
ghost use Rattle.frame_codec.specs.Spelling.{flags2, front_bytes, value_bytes, values_bytes, changes_bytes, content_bytes, frame_bytes};
ghost use Rattle.frame_codec.specs.Words.{IsKindOf, IsFrameOf, content_in, frame_in};

use crate::frame::{Frame, FrameKind};
use dataset_meta::Meta;
use row_words::{Patch, Row};
use ua_binary::variant_len;

/// The most bytes that a written frame has.
pub const MAX_LEN: usize = 2048;

/// How many bytes a frame takes.
#[inline(never)]
pub(crate) fn frame_len(meta: &Meta, frame: &Frame) -> usize
    requires { IsFrameOf meta.now frame.now }
    ensures { result ≡ length (frame_bytes meta.now.quality (frame_in meta.now.fields frame.now)) }
{
    front_len(frame) + content_len(meta, &frame.kind)
}

/// How many bytes the front of a frame takes, whatever the field encoding: all that stands before the count of fields.
#[inline(always)]
pub(crate) fn front_len(frame: &Frame) -> usize
    ensures len { (encoding : ℕ) (fields : List AnyField)
        → result ≡ length (front_bytes encoding (frame_in fields frame.now)) }
    ensures small { result ≤ 12 }
{
    flags_len(&frame.kind)
        + len_if(frame.number.is_some(), 2)
        + len_if(frame.major.is_some(), 4)
        + len_if(frame.minor.is_some(), 4)
}

#[inline(always)]
fn flags_len(kind: &FrameKind) -> usize
    ensures len { (fields : List AnyField)
        → result ≡ 1 + length (flags2 (content_in fields kind.now)) }
    ensures small { result ≤ 2 }
{
    match kind {
        FrameKind::Whole(_) => 1,
        FrameKind::Change(_) | FrameKind::Alive => 2,
    }
}

#[inline(always)]
fn len_if(present: bool, len: usize) -> usize
    ensures { result ≡ (if present then len else 0) }
{
    if present { len } else { 0 }
}

fn content_len(meta: &Meta, kind: &FrameKind) -> usize
    requires { IsKindOf meta.now kind.now }
    ensures len { result ≡ length (content_bytes meta.now.quality
        (content_in meta.now.fields kind.now)) }
    ensures small { result ≤ 2 + 64 * 268 }
{
    match kind {
        FrameKind::Whole(row) => 2 + row_len(meta, row),
        FrameKind::Change(patch) => 2 + patch_len(meta, patch),
        FrameKind::Alive => 0,
    }
}

fn row_len(meta: &Meta, row: &Row) -> usize
    requires { Belongs meta.now row.now.words }
    ensures len { result ≡ length (values_bytes meta.now.quality
        (row_in meta.now.fields row.now.words)) }
    ensures small { result ≤ 64 * 266 }
{
    let mut len = 0;
    for index in 0..meta.fields().len() {
        len += value_len(meta, row, index as u8);
    }
    len
}

fn patch_len(meta: &Meta, patch: &Patch) -> usize
    requires { IsPatchOf meta.now patch.now }
    ensures len { result ≡ length (changes_bytes meta.now.quality
        (patch_in meta.now.fields patch.now)) }
    ensures small { result ≤ 64 * 268 }
{
    let mut len = 0;
    for index in 0..meta.fields().len() {
        if is_marked(patch, index) {
            len += 2 + value_len(meta, &patch.row, index as u8);
        }
    }
    len
}

/// How many bytes the value of a field takes: of a DataValue a byte more than of a Variant, and four where it has a status.
fn value_len(meta: &Meta, row: &Row, index: u8) -> usize
    requires belongs { Belongs meta.now row.now.words }
    requires index { index < length meta.now.fields }
    ensures len { HoldsAt (λ x. result
        ≡ length (value_bytes meta.now.quality x)) (row_in meta.now.fields row.now.words) index }
    ensures small { result ≤ 266 }
{
    let len = variant_len(&row.field(meta, index));
    if !meta.quality() {
        len
    } else if row.status(meta, index) == 0 {
        1 + len
    } else {
        5 + len
    }
}

/// Whether the field at this index is marked.
#[inline(always)]
pub(crate) fn is_marked(patch: &Patch, index: usize) -> bool
    requires { index < 64 }
    ensures { result ≡ (bit_at patch.now.mask index == 1) }
{
    patch.mask >> index & 1 == 1
}

/// How many fields there are. A loop up to a `u8` has an index that fits one, as the calls of a row take it.
#[inline(always)]
pub(crate) fn field_count(meta: &Meta) -> u8
    ensures { result ≡ length meta.now.fields }
{
    meta.fields().len() as u8
}
