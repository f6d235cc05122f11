//! Laws of changes, each the contract of a function that does nothing.
ghost use Rattle.std.specs.Prelude.{◌≡◌, ◌↔◌, ℕ, List, []};
ghost use Rattle.dataset_meta.specs.Metas.{MetaData};
ghost use Rattle.dataset_meta.specs.Rows.{differs};
ghost use Rattle.row_words.specs.declared.patch.Patch.{Patch as PatchValue};
ghost use Rattle.row_words.specs.Belonging.{Belongs, row_in};
ghost use Rattle.row_words.specs.Patches.{patch_in, patched_words};

/// What `changed` answers, applied to the old row, gives the new one, words and all. Nothing changes exactly where the words
/// are the same.
pub fn changes_give_the_new_row()
    ensures words { (meta : MetaData) (old new : List ℕ) (patch : PatchValue) → Belongs meta old
        → Belongs meta new
        → patch_in meta.fields patch ≡ differs (row_in meta.fields old) (row_in meta.fields new)
        → patched_words meta.fields patch old ≡ new }
    ensures none { (meta : MetaData) (old new : List ℕ) → Belongs meta old → Belongs meta new
        → (differs (row_in meta.fields old) (row_in meta.fields new) ≡ []) ↔ (old ≡ new) }
{}
