//! Rows and patches written over in place, no further than they are used.
ghost use Rattle.std.specs.Prelude.{◌≡◌, ◌≤◌, ℕ, List, [], drop, max, replicate};
ghost use Rattle.dataset_meta.specs.declared.field.Field.{Field};
ghost use Rattle.dataset_meta.specs.Metas.{IsMeta, MetaData, words_of};
ghost use Rattle.dataset_meta.specs.Rows.{opening_row};
ghost use Rattle.row_words.specs.Belonging.{Belongs, row_in};
ghost use Rattle.row_words.specs.Patches.{IsPatchOf, patch_in};
ghost use Rattle.key_delta.specs.Fronts.{HasZerosBehind};

use dataset_meta::Meta;
use row_words::{Patch, Row};

/// So many words, or those of a row of this meta, where they are more.
pub fn wider(used: u32, meta: &Meta) -> u32
    requires { used ≤ 125 }
    ensures exact { result ≡ max used (words_of meta.now.fields) }
    ensures covers { words_of meta.now.fields ≤ result }
    ensures grows { used ≤ result }
    ensures narrow { result ≤ 125 }
{
    let words = meta.words();
    if used < words { words } else { used }
}

/// So many words, or those that a row of this meta uses, where they are more: without quality no more than those of its values.
#[inline(always)]
pub fn covering(used: u32, meta: &Meta) -> u32
    requires { used ≤ 125 }
    ensures grows { used ≤ result }
    ensures narrow { result ≤ 125 }
    ensures zeros { (words : List ℕ) → Belongs meta.now words → HasZerosBehind result words }
{
    let words = used_words(meta);
    if used < words { words } else { used }
}

/// Behind how many words each row of this meta has zeros. Without quality its statuses are zero too.
#[inline(always)]
pub(crate) fn used_words(meta: &Meta) -> u32
    ensures narrow { result ≤ 125 }
    ensures zeros { (words : List ℕ) → Belongs meta.now words → HasZerosBehind result words }
{
    prove!(!meta.fields().is_empty());
    if meta.quality() {
        meta.words()
    } else {
        meta.value_words()
    }
}

/// Makes a row another one, where both have zeros behind the first `count` words. No more than these are copied.
pub fn copy_front(from: &Row, count: u32, to: &mut Row)
    requires count { count ≤ 125 }
    requires from { HasZerosBehind count from.now.words }
    requires to { HasZerosBehind count to.old.words }
    ensures { to.new ≡ from.now }
{
    copy_words(from, count, to);
}

/// Makes a patch empty, whose row has zeros behind the first `count` words. No more than these are written.
pub fn clear_front(patch: &mut Patch, count: u32)
    requires count { count ≤ 125 }
    requires zeros { HasZerosBehind count patch.old.row.words }
    ensures of { (meta : MetaData) → IsMeta meta.fields → IsPatchOf meta patch.new }
    ensures empty { (fields : List Field) → patch_in fields patch.new ≡ [] }
{
    zeros_are_a_row();
    patch.mask = 0;
    patch.row.words[..count as usize].fill(0);
}

/// The rest is the same already.
#[inline(always)]
fn copy_words(from: &Row, count: u32, to: &mut Row)
    requires count { count ≤ 125 }
    requires same { drop count to.old.words ≡ drop count from.now.words }
    ensures { to.new ≡ from.now }
{
    let count = count as usize;
    to.words[..count].copy_from_slice(&from.words[..count]);
}

/// Zeros are the words of the opening row, whatever the meta.
#[inline(always)]
fn zeros_are_a_row()
    ensures belongs { (meta : MetaData) (words : List ℕ) → IsMeta meta.fields
        → words ≡ replicate 125 0 → Belongs meta words }
    ensures row { (fields : List Field) (words : List ℕ) → IsMeta fields
        → words ≡ replicate 125 0 → row_in fields words ≡ opening_row fields }
{
    let _zeros = Row::opening();
}
