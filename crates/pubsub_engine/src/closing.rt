//! The end of a session.
ghost use Rattle.std.specs.Prelude.{◌≡◌, ◌<◌, ◌≤◌, ◌++◌, ◌-◌, ℕ, List, All, IfOk, OnOk, length, map, option_map, slice_get, slice_set, Some};
ghost use Rattle.ps_report.specs.Conditions.{IsClosedOf};
ghost use Rattle.session_model.specs.Steps.{Plan, Step};
ghost use Rattle.session_model.specs.Closing.{IsClosedAfter, IsClosedTelling, TellsEndsIf};
ghost use Rattle.session_model.specs.Deeds.{logs_cut};
ghost use Rattle.session_model.specs.Lives.{Lived};
ghost use Rattle.pubsub_engine.specs.Holding.{IsSession, KeepsWholeLogs, logged_of, passes_of, plan_of, tells_versions};
ghost use Rattle.pubsub_engine.specs.Standing.{Stands};
ghost use Rattle.pubsub_engine.specs.Living.{StandsIn};
ghost use Rattle.pubsub_engine.specs.LifeEnds.{IsClosedIn, IsClosedWhole};
ghost use Rattle.pubsub_engine.specs.Told.{TellsParts};
ghost use Rattle.pubsub_engine.specs.Authored.{AreHistories, AreInOrder, AreLooksAt, HasThreads, IsAuthored, byte_of, filled, watch_of, watches_in_bytes, watches_of};
ghost use Rattle.app_threads.specs.Items.{versions_in};
ghost use Rattle.ps_config.specs.Sound.{readers};
ghost use Rattle.version_cell.specs.Sets.{pass_at};

use crate::ends::{group_ends, read_group_ends, reader_ends, writer_ends};
use crate::sampling::Samples;
use crate::session::Session;
use app_threads::{Done, Looked};
use ps_config::Parts;
use ps_report::{Closed, History, WatchEnd};
use reader_group::each_held_row_has_its_number;
use session_parts::link_end;
use std::alloc::Global;
use ua_base::NoMemory;

impl Session<'_> {
    /// Ends the session. `dones` has what each thread leaves, in the order of threads. The log of each writer has the data frames
    /// that it keeps, the first ones. Beside a row that a reader holds stands the version that the log has at its number. None
    /// stands there where logs are cut, of a session in which more than 65,536 ticks may come, the closing one included. There a
    /// number of 16 bits may be that of a data frame that the log keeps and of one that it doesn't.
    pub fn close(self, alloc: Global, dones: &[Done]) -> Result<Closed, NoMemory>
        requires session { IsSession self }
        ensures closed { (p : Plan) (steps : List Step)
            → Stands p steps self.entry → AreInOrder dones.now
            → let versions = tells_versions self.entry in
            IfOk result
            (IsClosedTelling versions (logs_cut (logged_of self.entry) p steps) p steps) }
        ensures whole { KeepsWholeLogs self.entry → (p : Plan) (steps : List Step)
            → Stands p steps self.entry → AreInOrder dones.now
            → IfOk result (IsClosedAfter p steps) }
        ensures histories { length dones.now ≤ 256
            → IfOk result (λ closed. (set : ℕ) (threads : List ℕ)
            → set < length (passes_of self.entry) → IsAuthored set dones.now threads
            → length threads ≡ length (pass_at (passes_of self.entry) set).seen
            → HasThreads closed.histories set threads) }
        ensures watches { AreInOrder dones.now
            → IfOk result (λ closed. closed.watches ≡ watches_of dones.now) }
        ensures of { IfOk result (λ closed. (steps : List Step)
            → Stands (plan_of self.entry) steps self.entry
            → AreLooksAt (readers (plan_of self.entry).config) dones.now
            → IsClosedOf (plan_of self.entry).config closed) }
        ensures lives { (p : Plan) (life : List Lived) → StandsIn p life self.entry
            → IfOk result (IsClosedIn (tells_versions self.entry) (logged_of self.entry) p life) }
        ensures whole_lives { KeepsWholeLogs self.entry → (p : Plan) (life : List Lived)
            → StandsIn p life self.entry → IfOk result (IsClosedWhole p life) }
        ensures ends { (p : Plan) (life : List Lived)
            → StandsIn p life self.entry → AreInOrder dones.now
            → IfOk result (TellsEndsIf (tells_versions self.entry) p.config) }
        ensures of_lives { IfOk result (λ closed. (life : List Lived)
            → StandsIn (plan_of self.entry) life self.entry
            → AreLooksAt (readers (plan_of self.entry).config) dones.now
            → IsClosedOf (plan_of self.entry).config closed) }
    {
        each_held_row_has_its_number();
        closed_of(alloc, &self, dones)
    }
}

/// What each part of a session tells.
fn closed_of(alloc: Global, session: &Session<'_>, dones: &[Done]) -> Result<Closed, NoMemory>
    requires { IsSession session.now }
    ensures { IfOk result (TellsParts session.now dones.now) }
{
    let config = session.config;
    let round = &session.round;
    let sets = session.sets.metas.len() as u8;
    let histories = histories(alloc, &session.samples, sets, dones)?;
    let watches = watches(alloc, dones)?;
    let groups = group_ends(alloc, config, &round.tree, &round.publisher)?;
    let writers = writer_ends(alloc, config, &round.tree, &round.publisher)?;
    let read_groups = read_group_ends(alloc, config, &round.tree, &round.subscriber)?;
    let readers = reader_ends(
        alloc,
        config,
        &round.tree,
        &round.publisher,
        &round.subscriber,
        session.left.tells_versions(),
    )?;
    Ok(Closed {
        histories: Parts::new(histories),
        groups: Parts::new(groups),
        writers: Parts::new(writers),
        read_groups: Parts::new(read_groups),
        readers: Parts::new(readers),
        watches: Parts::new(watches),
        link: link_end(&round.publisher, &round.receiving),
    })
}

/// The histories of so many data sets.
fn histories(
    alloc: Global,
    samples: &Samples,
    sets: u8,
    dones: &[Done],
) -> Result<Vec<History>, NoMemory>
    requires { sets ≤ length samples.now.passes }
    ensures { IfOk result
        (λ histories. AreHistories samples.now.passes dones.now sets histories.items) }
{
    let mut histories = Vec::new(alloc);
    for set in 0..sets {
        let count = samples.version(set);
        histories.push(History {
            threads: Parts::new(threads_of(alloc, set, dones, count)?),
        })?;
    }
    Ok(histories)
}

/// The thread of each of so many versions of a data set.
fn threads_of(alloc: Global, set: u8, dones: &[Done], count: u64) -> Result<Vec<u8>, NoMemory>
    ensures { (threads : List ℕ) → length dones.now ≤ 256 → IsAuthored set dones.now threads
        → length threads ≡ count → IfOk result (λ made. made.items ≡ threads) }
{
    let mut threads = vec![in alloc; 0u8; count as usize]?;
    for thread in 0..dones.len().min(256) {
        let versions = dones[thread].versions.as_slice();
        fill(&mut threads, thread as u8, set, versions);
    }
    Ok(threads)
}

/// Notes a thread at each of its versions of a data set.
fn fill(threads: &mut Vec<u8>, thread: u8, set: u8, versions: &[(u8, u64)])
    ensures { threads.new.items ≡ filled thread (versions_in set versions.now) threads.old.items }
{
    for (written, version) in versions {
        if *written == set {
            put(threads, thread, *version);
        }
    }
}

/// Notes a thread at one of its versions.
fn put(threads: &mut Vec<u8>, thread: u8, version: u64)
    ensures { threads.new.items ≡ slice_set threads.old.items (version - 1) thread }
{
    let place = version.saturating_sub(1) as usize;
    if place < threads.len() {
        threads[place] = thread;
    }
}

/// The looks of all threads, in the order of threads.
fn watches(alloc: Global, dones: &[Done]) -> Result<Vec<WatchEnd>, NoMemory>
    ensures { IfOk result (λ watches. watches.items ≡ watches_in_bytes dones.now) }
{
    let mut watches = Vec::new(alloc);
    for done in dones {
        push_watches(alloc, &mut watches, done)?;
    }
    Ok(watches)
}

/// The looks of a thread.
fn push_watches(alloc: Global, watches: &mut Vec<WatchEnd>, done: &Done) -> Result<(), NoMemory>
    ensures { OnOk result (watches.new.items
        ≡ watches.old.items ++ map (watch_of (byte_of done.now.list)) done.now.looks) }
{
    let thread = done.list.min(255) as u8;
    for looked in done.looks.as_slice() {
        watches.push(watch_end(alloc, thread, looked)?)?;
    }
    Ok(())
}

fn watch_end(alloc: Global, thread: u8, looked: &Looked) -> Result<WatchEnd, NoMemory>
    ensures { IfOk result (λ end. end ≡ watch_of thread looked.now) }
{
    Ok(WatchEnd {
        thread,
        reader: looked.reader,
        counts: Parts::new(looked.counts.as_slice().to_vec(alloc)?),
    })
}
