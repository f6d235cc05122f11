//! Laws of rows in words, each the contract of a function that does nothing.
ghost use Rattle.std.specs.Prelude.{◌≡◌, ◌↔◌, ℕ, List, false, replicate, slice_set};
ghost use Rattle.ua_values.specs.declared.value.Value.{Value};
ghost use Rattle.dataset_meta.specs.DataValues.{DataValue};
ghost use Rattle.dataset_meta.specs.Metas.{IsMeta, MetaData, HasGrown};
ghost use Rattle.dataset_meta.specs.Rows.{IsRow, IsPatch, patched, row_cut};
ghost use Rattle.row_words.specs.declared.patch.Patch.{Patch as PatchValue};
ghost use Rattle.row_words.specs.Belonging.{Belongs, row_in, spelled_row, cut_words};
ghost use Rattle.row_words.specs.Setting.{with_value, with_status};
ghost use Rattle.row_words.specs.Patches.{IsPatchOf, patch_in, patched_words, spelled_patch};
ghost use Rattle.row_words.specs.Shapes.{BelongsTo, HaveOneShape, shape_of};

/// Two rows of a meta are equal exactly where their words are.
pub fn equal_words_are_equal_rows()
    ensures { (meta : MetaData) (one other : List ℕ) → Belongs meta one → Belongs meta other
        → (one ≡ other) ↔ (row_in meta.fields one ≡ row_in meta.fields other) }
{}

/// Each row of a meta has words, and they stand for it.
pub fn rows_have_words()
    ensures belongs { (meta : MetaData) (row : List DataValue) → IsMeta meta.fields → IsRow meta row
        → Belongs meta (spelled_row meta.fields row) }
    ensures row { (meta : MetaData) (row : List DataValue) → IsRow meta row
        → row_in meta.fields (spelled_row meta.fields row) ≡ row }
{}

/// Each patch of a meta has a mask and words, and they stand for it.
pub fn patches_have_words()
    ensures of { (meta : MetaData) (patch : List (ℕ × DataValue)) → IsMeta meta.fields
        → IsPatch meta patch
        → IsPatchOf meta (spelled_patch meta.fields patch) }
    ensures patch { (meta : MetaData) (patch : List (ℕ × DataValue)) → IsMeta meta.fields
        → IsPatch meta patch
        → patch_in meta.fields (spelled_patch meta.fields patch) ≡ patch }
{}

/// Two patches of a meta are equal, mask and words, exactly where they stand for the same.
pub fn equal_patches_have_one_meaning()
    ensures { (meta : MetaData) (one other : PatchValue) → IsPatchOf meta one → IsPatchOf meta other
        → (one ≡ other) ↔ (patch_in meta.fields one ≡ patch_in meta.fields other) }
{}

/// Words belong to the shape of a meta exactly where they belong to the meta. Zeros belong to each.
pub fn words_belong_by_shape()
    ensures shape { (meta : MetaData) (words : List ℕ) → IsMeta meta.fields
        → BelongsTo (shape_of meta) words ↔ Belongs meta words }
    ensures zeros { (meta : MetaData) → IsMeta meta.fields
        → BelongsTo (shape_of meta) (replicate 125 0) }
{}

/// Metas of one shape give words one meaning: they stand for the same row, and the same patch, and each row has the same words. Both
/// have quality, or neither has.
pub fn shapes_have_one_meaning()
    ensures rows { (one other : MetaData) (words : List ℕ) → HaveOneShape one other
        → row_in one.fields words ≡ row_in other.fields words }
    ensures patches { (one other : MetaData) (patch : PatchValue) → HaveOneShape one other
        → patch_in one.fields patch ≡ patch_in other.fields patch }
    ensures words { (one other : MetaData) (row : List DataValue) → HaveOneShape one other
        → spelled_row one.fields row ≡ spelled_row other.fields row }
    ensures belongs { (one other : MetaData) (words : List ℕ) → HaveOneShape one other
        → Belongs one words → Belongs other words }
    ensures quality { (one other : MetaData) → HaveOneShape one other
        → one.quality ≡ other.quality }
{}

/// Marked fields are a patch of the meta. Words with a patch laid in belong where the words did, and stand for the patched row.
pub fn patched_words_belong()
    ensures patch { (meta : MetaData) (patch : PatchValue) → IsPatchOf meta patch
        → IsPatch meta (patch_in meta.fields patch) }
    ensures belongs { (meta : MetaData) (patch : PatchValue) (words : List ℕ) → IsMeta meta.fields
        → IsPatchOf meta patch
        → Belongs meta words → Belongs meta (patched_words meta.fields patch words) }
    ensures row { (meta : MetaData) (patch : PatchValue) (words : List ℕ) → IsMeta meta.fields
        → IsPatchOf meta patch
        → Belongs meta words → row_in meta.fields (patched_words meta.fields patch words)
        ≡ patched (row_in meta.fields words) (patch_in meta.fields patch) }
    ensures shape { (meta : MetaData) (patch : PatchValue) (shape words : List ℕ)
        → IsMeta meta.fields → shape_of meta ≡ shape
        → IsPatchOf meta patch → BelongsTo shape words
        → BelongsTo shape (patched_words meta.fields patch words) }
{}

/// Words of a data set that has grown, cut to the fields that it had before, belong to what it was, and stand for the cut row.
pub fn cut_rows_have_words()
    ensures belongs { (short full : MetaData) (words : List ℕ) → IsMeta short.fields
        → HasGrown short full → Belongs full words
        → Belongs short (cut_words short full words) }
    ensures row { (short full : MetaData) (words : List ℕ) → HasGrown short full
        → Belongs full words
        → row_in short.fields (cut_words short full words)
        ≡ row_cut short (row_in full.fields words) }
{}

/// A value and then its status are both set, in either order. Without quality the value is all that is to be set.
pub fn values_and_statuses_stand_apart()
    ensures both { (row : List DataValue) (index : ℕ) (value : Value) (status : ℕ)
        → with_status (with_value row index value) index status
        ≡ slice_set row index (record { value = value; status = status }) }
    ensures either { (row : List DataValue) (index : ℕ) (value : Value) (status : ℕ)
        → with_value (with_status row index status) index value
        ≡ slice_set row index (record { value = value; status = status }) }
    ensures good { (meta : MetaData) (row : List DataValue) (index : ℕ) (value : Value)
        → IsRow meta row → meta.quality ≡ false
        → with_value row index value ≡ slice_set row index (record { value = value; status = 0 }) }
{}
