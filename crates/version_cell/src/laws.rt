//! Laws of the rule of a cell and of what its passes see, each the contract of a function that does nothing.
ghost use Rattle.std.specs.Prelude.{◌≡◌, ℕ, ◌+◌, ◌<◌, ◌≤◌, List, [], ◌∷◌, ◌++◌, length, sum, take, slice_index, Option, Some, IsSome};
ghost use Rattle.crossbeam_utils.specs.Register.{Turns, Forks, Merges};
ghost use Rattle.dataset_meta.specs.declared.field.Field.{Field};
ghost use Rattle.dataset_meta.specs.Metas.{MetaData, IsMeta};
ghost use Rattle.dataset_meta.specs.Rows.{opening_row, patched};
ghost use Rattle.row_words.specs.declared.patch.Patch.{Patch as PatchValue};
ghost use Rattle.row_words.specs.Belonging.{Belongs, row_in};
ghost use Rattle.row_words.specs.Patches.{IsPatchOf, patch_in};
ghost use Rattle.pubsub_model.specs.History.{IsHistory, row_of};
ghost use Rattle.version_cell.specs.declared.rule.Entry.{Entry as EntryValue};
ghost use Rattle.version_cell.specs.declared.rule.View.{View as ViewValue};
ghost use Rattle.version_cell.specs.Histories.{StartsWith, entry, history_of, opening_words, own, row_after};
ghost use Rattle.version_cell.specs.Terms.{IsLawful, IsSole, quota};
ghost use Rattle.version_cell.specs.Views.{blank, copied, joined};
ghost use Rattle.version_cell.specs.Rule.{Kept, spell};
ghost use Rattle.version_cell.specs.Steps.{Closes, Enrols, MayEnrol, MayStore, MayWrite, Reads, Tries, Writes, exchanged, seen_words, written_words};
ghost use Rattle.version_cell.specs.Known.{Known};
ghost use Rattle.version_cell.specs.Cells.{CellData, IsCell};
ghost use Rattle.version_cell.specs.Passes.{Adds, AddsLater, HasLeft, IsFull, IsPassOf, SeesLawful, SeesMore, new_pass, row_with};
ghost use Rattle.version_cell.specs.Sets.{ArePassesOf, cell_at, new_passes, pass_at};

use row_words::{Row, patched_words_belong, words_belong_by_shape};

/// Words of a cell that are equal have equal parts.
pub fn spellings_have_equal_parts()
    ensures { (version other_version count other_count : ℕ)
        (row other_row terms other_terms : List ℕ) → length row ≡ 125 → length other_row ≡ 125
        → spell version count row terms ≡ spell other_version other_count other_row other_terms
        → (version ≡ other_version) × (count ≡ other_count)
        × (row ≡ other_row) × (terms ≡ other_terms) }
{}

/// A new cell meets the rule, and each kind of step keeps it, from any state that meets it: a load, the load that ends a join, a
/// write or an enrolment by an exchange that wins or loses, a store, a split, the move of a view to a new pass, and a join.
pub fn steps_keep_the_rule()
    ensures opening { (terms : List ℕ) → length terms ≡ 24
        → Kept (spell 0 0 opening_words terms) (blank ∷ []) }
    ensures load { (pass : ℕ) (v : ViewValue) → Turns Kept pass v (λ x. x) Reads }
    ensures closing_load { (pass : ℕ) (v : ViewValue) → Turns Kept pass v (λ x. x) Closes }
    ensures write { (pass author : ℕ) (v : ViewValue) (terms row : List ℕ)
        → MayWrite v author terms row
        → let expected = seen_words v v.count terms in let new = written_words v row terms in
        Turns Kept pass v (exchanged expected new) Tries }
    ensures store { (pass : ℕ) (v : ViewValue) (terms row : List ℕ) → MayStore v terms row
        → let new = written_words v row terms in Turns Kept pass v (λ _. new) Writes }
    ensures enrolment { (pass : ℕ) (v : ViewValue) (terms : List ℕ) → MayEnrol v terms
        → let expected = seen_words v v.count terms in let new = seen_words v (v.count + 1) terms in
        Turns Kept pass v (exchanged expected new) Enrols }
    ensures split { (pass : ℕ) (v : ViewValue) → Forks Kept pass v v (copied v) }
    ensures moving { (pass : ℕ) (v : ViewValue) → Forks Kept pass v blank v }
    ensures join { (pass other : ℕ) (v w : ViewValue)
        → Merges Kept pass v other w (joined v w) blank }
{}

/// What a pass has seen is a history of the model. The row of each version is that of the words of its entry, or of the opening
/// words, and the row of a patch that is laid in is the row before it, patched.
pub fn histories_are_the_models()
    ensures history { (cell : CellData) (p : Known) → IsCell cell → IsPassOf cell p → SeesLawful p
        → IsHistory cell.meta (history_of cell.meta.fields p.seen) }
    ensures belongs { (cell : CellData) (p : Known) → IsCell cell → IsPassOf cell p → SeesLawful p
        → Belongs cell.meta (row_after p.seen) }
    ensures row { (fields : List Field) (log : List EntryValue) → IsMeta fields
        → row_of fields (history_of fields log) (length log) ≡ row_in fields (row_after log) }
    ensures rows { (fields : List Field) (log : List EntryValue) (version : ℕ) → IsMeta fields
        → version ≤ length log → row_of fields (history_of fields log) version
        ≡ row_in fields (row_after (take version log)) }
    ensures opening { (fields : List Field) → IsMeta fields
        → row_in fields opening_words ≡ opening_row fields }
    ensures opening_belongs { (meta : MetaData) → IsMeta meta.fields → Belongs meta opening_words }
    ensures patched { (cell : CellData) (p : Known) (patch : PatchValue)
        → IsCell cell → IsPassOf cell p → SeesLawful p → IsPatchOf cell.meta patch
        → let fields = cell.meta.fields in row_in fields (row_with cell patch p)
        ≡ patched (row_in fields (row_after p.seen)) (patch_in fields patch) }
{
    let _zeros = Row::opening();
    words_belong_by_shape();
    patched_words_belong();
}

/// The terms that a pass knows begin with the quotas of its cell, and it sees no more entries than they add up to.
pub fn quotas_bound_the_version()
    ensures quotas { (cell : CellData) (p : Known) (author : ℕ) → IsCell cell → IsPassOf cell p
        → author < 8 → quota author p.terms ≡ slice_index cell.quotas author }
    ensures version { (cell : CellData) (p : Known) → IsCell cell → IsPassOf cell p → SeesLawful p
        → length p.seen ≤ sum cell.quotas }
{}

/// An author that has made as many entries as its quota makes no further one.
pub fn full_authors_make_no_entry()
    ensures { (terms : List ℕ) (log seen : List EntryValue) (author : ℕ) → author < 8
        → IsLawful terms log → StartsWith log seen
        → length (own author seen) ≡ quota author terms → own author log ≡ own author seen }
{}

/// Where number 0 alone may make entries, its entries are the history, and its pass never sees an entry that it has not made.
pub fn sole_authors_see_nothing_new()
    ensures history { (terms : List ℕ) (log : List EntryValue) → IsLawful terms log → IsSole terms
        → own 0 log ≡ log }
    ensures pass { (old new : Known) → SeesMore old new → old.author ≡ Some 0
        → SeesLawful old → SeesLawful new → IsSole old.terms → new.seen ≡ old.seen }
{}

/// A pass has seen as much as itself, and one that has seen more than a later one has seen more than the earlier one. Where it
/// has an entry left before, it has one left after, and it isn't full.
pub fn passes_see_on()
    ensures itself { (p : Known) → SeesMore p p }
    ensures on { (first next last : Known) → SeesMore first next → SeesMore next last
        → SeesMore first last }
    ensures left { (old new : Known) → SeesMore old new → HasLeft old → HasLeft new }
    ensures full { (p : Known) (made : ℕ) → IsSome p.author → HasLeft p → ¬ (IsFull p made) }
{}

/// The entries of a pass's own number are those that it made, in its order: where it sees more there are no further ones, and an
/// entry that it makes is one more, behind the others.
pub fn own_entries_are_those_made()
    ensures others { (old new : Known) (author : ℕ) → SeesMore old new → old.author ≡ Some author
        → own author new.seen ≡ own author old.seen }
    ensures made { (old new : Known) (row : List ℕ) (author : ℕ) → Adds old new row
        → old.author ≡ Some author
        → own author new.seen ≡ own author old.seen ++ entry author row ∷ [] }
    ensures later { (cell : CellData) (patch : PatchValue) (old new : Known) (author : ℕ)
        (made : AddsLater cell patch old new) → old.author ≡ Some author
        → own author new.seen
        ≡ own author old.seen ++ entry author (row_with cell patch made.before) ∷ [] }
{}

/// What was seen is a beginning of what is seen later, and an author's entries in a history begin with those in each beginning.
pub fn histories_go_on()
    ensures itself { (log : List EntryValue) → StartsWith log log }
    ensures on { (last next first : List EntryValue) → StartsWith last next → StartsWith next first
        → StartsWith last first }
    ensures longer { (log more seen : List EntryValue) → StartsWith log seen
        → StartsWith (log ++ more) seen }
    ensures shorter { (log seen : List EntryValue) → StartsWith log seen
        → length seen ≤ length log }
    ensures entries { (author : ℕ) (log more : List EntryValue)
        → own author (log ++ more) ≡ own author log ++ own author more }
{}

/// New passes are of their cells, one of each, and have seen nothing.
pub fn new_passes_are_of_their_cells()
    ensures own { (cells : List CellData) (author : Option ℕ)
        → ArePassesOf cells (new_passes cells author) }
    ensures each { (cells : List CellData) (author : Option ℕ) (k : ℕ) → k < length cells
        → pass_at (new_passes cells author) k ≡ new_pass (cell_at cells k) author }
    ensures lawful { (cell : CellData) (author : Option ℕ) → SeesLawful (new_pass cell author) }
{}
