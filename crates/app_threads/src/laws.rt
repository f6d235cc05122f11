//! Laws of what threads leave, each the contract of a function that does nothing.
ghost use Rattle.std.specs.Prelude.{◌≡◌, ◌≤◌, ◌<◌, ℕ, List, All, length, slice_index_or, Vec as VecValue};
ghost use Rattle.std.specs.declared.alloc.Global.{Global as GlobalValue};
ghost use Rattle.row_words.specs.declared.patch.Patch.{Patch as PatchValue};
ghost use Rattle.pubsub_model.specs.History.{IsLegal, legal_history, places};
ghost use Rattle.version_cell.specs.Histories.{StartsWith, history_of};
ghost use Rattle.version_cell.specs.Known.{Known};
ghost use Rattle.version_cell.specs.Cells.{CellData, IsCell};
ghost use Rattle.version_cell.specs.Sets.{ArePassesOf, cell_at, pass_at};
ghost use Rattle.cell_bank.specs.Hands.{AreHands};
ghost use Rattle.app_threads.specs.declared.item.Item.{Item as ItemValue};
ghost use Rattle.app_threads.specs.declared.done.Done.{Done as DoneValue};
ghost use Rattle.app_threads.specs.Marks.{authors};
ghost use Rattle.app_threads.specs.Items.{versions_in};
ghost use Rattle.app_threads.specs.Looks.{NeverFalls, counts_in};
ghost use Rattle.app_threads.specs.Duties.{Duty};
ghost use Rattle.app_threads.specs.Crews.{AreDone, AreReady, AreUnseen, AreWithin, given_to};
ghost use Rattle.app_threads.specs.Closing.{IsClosed, IsJoined, lists_of, meanings, threads_of};

use row_words::{Row, patched_words_belong};

/// New hands of a bank may run lists that ask for nothing but what is there, and whose writes are within the quotas. They have
/// seen no entry.
pub fn new_hands_can_run()
    ensures ready { (bank targets : List CellData) (hands : List (List Known))
        (watches : List Known) (lists : List (VecValue ItemValue GlobalValue))
        → All IsCell bank → AreHands bank hands
        → ArePassesOf targets watches → length lists ≡ 8 → AreWithin bank targets lists
        → AreReady bank targets (given_to lists hands watches) }
    ensures unseen { (bank : List CellData) (hands : List (List Known)) (watches : List Known)
        (lists : List (VecValue ItemValue GlobalValue)) → AreHands bank hands → length lists ≡ 8
        → AreUnseen bank (given_to lists hands watches) }
{}

/// A pass that has seen what each thread of a crew left has seen every write of every list, at the versions that the threads were
/// answered, and no other entry.
pub fn joined_passes_show_every_write()
    ensures closed { (bank targets : List CellData) (duties : List Duty) (dones : List DoneValue)
        (set : ℕ) (p : Known) → IsJoined bank targets duties dones set p
        → IsClosed (cell_at bank set) p (lists_of set duties) }
    ensures versions { (bank targets : List CellData) (duties : List Duty) (dones : List DoneValue)
        (set t : ℕ) (p : Known) (none : DoneValue) → IsJoined bank targets duties dones set p
        → t < length dones
        → versions_in set (slice_index_or dones t none).versions ≡ places t 0 (authors p.seen) }
{}

/// Where each thread's entries are its whole list of patches, the threads of the entries are legal for the lists, and the history
/// is the one that those threads make with them.
pub fn closed_histories_are_legal()
    ensures legal { (cell : CellData) (p : Known) (lists : List (List PatchValue))
        → IsClosed cell p lists → IsLegal (threads_of p.seen) (meanings cell.meta.fields lists) }
    ensures history { (cell : CellData) (p : Known) (lists : List (List PatchValue))
        → IsClosed cell p lists → let patches = meanings cell.meta.fields lists in
        history_of cell.meta.fields p.seen
        ≡ legal_history cell.meta.fields patches (threads_of p.seen) }
{
    let _zeros = Row::opening();
    patched_words_belong();
}

/// No look of a thread at a reader counts fewer stores than an earlier one, and none counts more than a pass has seen that has
/// seen what the thread left.
pub fn looks_never_fall()
    ensures rising { (bank targets : List CellData) (duties : List Duty) (dones : List DoneValue)
        (t reader : ℕ) (none : DoneValue) → AreDone bank targets duties dones
        → t < length duties → reader < length targets
        → NeverFalls (counts_in reader (slice_index_or dones t none).looks) }
    ensures counted { (bank targets : List CellData) (duties : List Duty) (dones : List DoneValue)
        (t reader : ℕ) (none : DoneValue) (p : Known) → AreDone bank targets duties dones
        → t < length duties → reader < length targets → let done = slice_index_or dones t none in
        StartsWith p.seen (pass_at done.watches reader).seen
        → All (λ count. count ≤ length p.seen) (counts_in reader done.looks) }
{}
