//! What a thread of the application has: its passes, and what its writes and looks were answered.
ghost use Rattle.std.specs.Prelude.{◌≡◌, ◌<◌, ◌++◌, ◌∷◌, [], length, IsSome, IfOk, OnOk};
ghost use Rattle.row_words.specs.Patches.{IsPatchOf};
ghost use Rattle.version_cell.specs.Passes.{AddsLater, HasLeft};
ghost use Rattle.version_cell.specs.Sets.{ArePassesOf, ChangesAt, cell_at, pass_at};
ghost use Rattle.pubsub_engine.specs.Holding.{ChangesSamples, IsBankOf, IsSession, passes_of};
ghost use Rattle.pubsub_engine.specs.Standing.{KeepsStands};
ghost use Rattle.script_player.specs.Player.{HasWritten, KeepAuthors, SeeNoMore};

use app_threads::{Done, Looked, Series};
use cell_bank::Bank;
use pubsub_engine::Session;
use row_words::Patch;
use std::alloc::Global;
use std::sync::Wait;
use target_cells::Targets;
use ua_base::NoMemory;
use version_cell::{Passes, Placed, passes_see_on};

/// A thread of the application.
#[derive(Drop)]
pub(crate) struct Hand {
    /// Its passes to the cells of the data sets.
    pub(crate) passes: Passes,
    /// The data set and the version of each of its writes, in order.
    pub(crate) versions: Vec<(u8, u64)>,
    /// What each of its watches counted, in order.
    pub(crate) looks: Vec<Looked>,
}

impl Hand {
    /// Before its first write.
    pub(crate) fn new(alloc: Global, passes: Passes) -> Hand
        ensures passes { result.passes ≡ passes }
        ensures versions { result.versions.items ≡ [] }
        ensures looks { result.looks.items ≡ [] }
    {
        Hand {
            passes,
            versions: Vec::new(alloc),
            looks: Vec::new(alloc),
        }
    }

    /// A write of a data set: its passes take in what the session has seen, and the session what they have seen then, so that the
    /// next write of any thread and the next sample stand after it.
    pub(crate) fn write<R: Wait>(
        &mut self,
        rt: &R,
        alloc: Global,
        bank: &Bank,
        session: &mut Session<'_>,
        set: u8,
        patch: &Patch,
    ) -> Result<(), NoMemory>
        requires session { IsSession session.old }
        requires bank { IsBankOf session.old bank.now }
        requires own { ArePassesOf bank.now self.old.passes }
        requires behind { SeeNoMore self.old.passes (passes_of session.old) }
        requires set { set < length bank.now }
        requires numbered { IsSome (pass_at self.old.passes set).author }
        requires patch { IsPatchOf (cell_at bank.now set).meta patch.now }
        requires left { HasLeft (pass_at self.old.passes set) }
        ensures session { OnOk result (IsSession session.new) }
        ensures bank { OnOk result (IsBankOf session.new bank.now) }
        ensures own { OnOk result (ArePassesOf bank.now self.new.passes) }
        ensures wrote { OnOk result (HasWritten (cell_at bank.now set) set patch.now
            (passes_of session.old) (passes_of session.new) self.old self.new) }
        ensures authors { OnOk result (KeepAuthors self.old.passes self.new.passes) }
        ensures behind { OnOk result (SeeNoMore self.new.passes (passes_of session.new)) }
        ensures samples { OnOk result (ChangesSamples session.old session.new) }
        ensures stands { OnOk result (KeepsStands session.old session.new) }
    {
        passes_see_on();
        let seen = session.share(alloc, bank)?;
        bank.join(rt, &mut self.passes, seen);
        let version = place(rt, bank, &mut self.passes, set, patch);
        self.versions.push((set, version))?;
        let shown = bank.split(alloc, &mut self.passes)?;
        session.meet(rt, bank, shown);
        Ok(())
    }

    /// Its looks at a reader counted so many stores.
    pub(crate) fn looked(&mut self, reader: u8, counts: Vec<u64>) -> Result<(), NoMemory>
        ensures looks { OnOk result (self.new.looks.items
            ≡ self.old.looks.items ++ record { reader = reader; counts = counts.items } ∷ []) }
        ensures rest { self.new ≡ record self.old { looks = self.new.looks } }
    {
        self.looks.push(Looked {
            reader,
            counts: Series::new(counts),
        })?;
        Ok(())
    }

    /// What it leaves, with passes that have seen what all threads have seen of the readers' targets.
    pub(crate) fn done(
        self,
        alloc: Global,
        thread: u32,
        targets: &Targets,
        watches: &mut Passes,
    ) -> Result<Done, NoMemory>
        requires own { ArePassesOf targets.now.cells watches.old }
        ensures same { watches.new ≡ watches.old }
        ensures list { IfOk result (λ done. done.list ≡ thread) }
        ensures versions { IfOk result (λ done. done.versions ≡ self.versions.items) }
        ensures looks { IfOk result (λ done. done.looks ≡ self.looks.items) }
    {
        Ok(Done {
            list: thread,
            versions: Series::new(self.versions),
            looks: Series::new(self.looks),
            passes: self.passes,
            watches: targets.split(alloc, watches)?,
        })
    }
}

/// Writes a data set through passes that may still write; the version.
fn place<R: Wait>(rt: &R, bank: &Bank, passes: &mut Passes, set: u8, patch: &Patch) -> u64
    requires own { ArePassesOf bank.now passes.old }
    requires set { set < length bank.now }
    requires numbered { IsSome (pass_at passes.old set).author }
    requires patch { IsPatchOf (cell_at bank.now set).meta patch.now }
    requires left { HasLeft (pass_at passes.old set) }
    ensures placed { AddsLater (cell_at bank.now set) patch.now
        (pass_at passes.old set) (pass_at passes.new set) }
    ensures version { result ≡ length (pass_at passes.new set).seen }
    ensures others { ChangesAt set passes.old passes.new }
    ensures own { ArePassesOf bank.now passes.new }
{
    match bank.write(rt, set, passes, patch) {
        Placed::Wrote(version) => version,
        Placed::Full { .. } => unreachable!(),
    }
}
