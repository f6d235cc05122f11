//! The opening of a session.
ghost use Rattle.std.specs.Prelude.{◌≡◌, ◌≤◌, ◌+◌, ◌++◌, [], All, IfOk, Some, None, false, length, map};
ghost use Rattle.arrayvec.specs.ArrayVec.{array_vec_len};
ghost use Rattle.ps_config.specs.Sound.{readers};
ghost use Rattle.ps_config.specs.Types.{HasTypes};
ghost use Rattle.version_cell.specs.Sets.{ArePassesOf, new_passes};
ghost use Rattle.version_cell.specs.Cells.{IsCell};
ghost use Rattle.cell_bank.specs.Hands.{AreHands, AreSmall};
ghost use Rattle.target_cells.specs.Keeping.{AreKept};
ghost use Rattle.writer_group.specs.Standing.{IsGood};
ghost use Rattle.session_model.specs.Counts.{life_ticks};
ghost use Rattle.session_model.specs.Keeping.{IsPlan};
ghost use Rattle.pubsub_engine.specs.Holding.{AreAppends, AreTargetsOf, IsBankOf, IsSession, appends_left, full_of, keeper_of, left_of, opening_left, passes_of, plan_of};
ghost use Rattle.pubsub_engine.specs.Standing.{Stands, sampled_by, samples_of};
ghost use Rattle.pubsub_engine.specs.Opened.{AreNewCells, AreNewPasses, AreNewSets, AreWrites, IsNewSession, IsOpening};

use crate::sampling::Samples;
use crate::session::{Left, Session};
use crate::sets::Sets;
use crate::size::Size;
use crate::storing::Stores;
use arrayvec::ArrayVec;
use cell_bank::Bank;
use dataset_meta::Meta;
use ps_config::{Config, ReaderPart};
use session_parts::Round;
use std::alloc::Global;
use std::sync::Wait;
use target_cells::{Keeper, Targets};
use ua_base::NoMemory;
use version_cell::Passes;

/// A new session, the cells of its data sets with the passes of the eight threads, and the targets of its readers with passes that
/// look at them.
#[derive(Drop)]
pub struct Opening<'c> {
    pub session: Session<'c>,
    pub bank: Bank,
    pub hands: Vec<Passes>,
    pub targets: Targets,
    pub watches: Passes,
}

impl<'c> Session<'c> {
    /// A session of the configuration, with room for so much: all memory is taken here. An error says that it ran out.
    pub fn open<R: Wait>(
        rt: &R,
        alloc: Global,
        config: &'c Config,
        size: &Size,
    ) -> Result<Opening<'c>, NoMemory>
        requires good { IsGood config.now }
        requires ticks { size.now.ticks ≤ life_ticks }
        requires sets { length size.now.writes.items ≡ length config.now.dataset }
        requires writes { AreSmall size.now.writes.items }
        requires appends { AreAppends config.now config.now.dataset size.now.appends.items }
        ensures plan { IfOk result (λ o. plan_of o.session ≡ record {
          config = config.now;
          full = full_of config.now.dataset size.now.appends.items;
        }) }
        ensures is_plan { HasTypes config.now → IfOk result (λ o. IsPlan (plan_of o.session)) }
        ensures session { IfOk result (λ o. IsSession o.session) }
        ensures stands { IfOk result (λ o. Stands (plan_of o.session) [] o.session) }
        ensures left { IfOk result (λ o.
            left_of o.session ≡ opening_left size.now.ticks size.now.logged) }
        ensures appends { IfOk result
            (λ o. appends_left o.session ≡ map (λ append. append.set) size.now.appends.items) }
        ensures bank { IfOk result (λ o. IsBankOf o.session o.bank) }
        ensures cells { IfOk result (λ o. All IsCell o.bank) }
        ensures quotas { IfOk result
            (λ o. map (λ cell. cell.quotas) o.bank ≡ size.now.writes.items) }
        ensures passes { IfOk result (λ o. passes_of o.session ≡ new_passes o.bank None) }
        ensures sampled { IfOk result
            (λ o. sampled_by o.session ≡ samples_of (passes_of o.session)) }
        ensures hands { IfOk result (λ o. AreHands o.bank o.hands.items) }
        ensures targets { IfOk result (λ o. AreTargetsOf o.session o.targets) }
        ensures kept { IfOk result (λ o. AreKept o.targets) }
        ensures keeper { IfOk result
            (λ o. keeper_of o.session ≡ new_passes o.targets.cells (Some 0)) }
        ensures watches { IfOk result (λ o. o.watches ≡ new_passes o.targets.cells None) }
        ensures looks { IfOk result (λ o. ArePassesOf o.targets.cells o.watches) }
    {
        let sets = Sets::new(alloc, config, size.appends.as_slice())?;
        opening_with(rt, alloc, config, size, sets)
    }
}

/// The cells of a session's data sets and those of its readers, with all passes of both.
#[derive(Drop)]
struct Cells {
    bank: Bank,
    passes: Passes,
    hands: Vec<Passes>,
    targets: Targets,
    keeper: Keeper,
    watches: Passes,
}

/// A new session over its data sets, and new cells for it.
fn opening_with<'c, R: Wait>(
    rt: &R,
    alloc: Global,
    config: &'c Config,
    size: &Size,
    sets: Sets,
) -> Result<Opening<'c>, NoMemory>
    requires good { IsGood config.now }
    requires ticks { size.now.ticks ≤ life_ticks }
    requires writes { AreWrites config.now size.now.writes.items }
    requires appends { AreAppends config.now config.now.dataset size.now.appends.items }
    requires sets { AreNewSets config.now size.now.appends.items sets }
    ensures { IfOk result (IsOpening config.now size.now) }
{
    let cells = new_cells(rt, alloc, config, size, &sets.full)?;
    let Cells {
        bank,
        passes,
        hands,
        targets,
        keeper,
        watches,
    } = cells;
    let session = new_session(alloc, config, size, sets, passes, keeper)?;
    Ok(Opening {
        session,
        bank,
        hands,
        targets,
        watches,
    })
}

/// Cells for data sets with all their fields, and one for each reader, which may be stored once at each tick.
fn new_cells<R: Wait>(
    rt: &R,
    alloc: Global,
    config: &Config,
    size: &Size,
    full: &[Meta],
) -> Result<Cells, NoMemory>
    requires good { IsGood config.now }
    requires ticks { size.now.ticks ≤ life_ticks }
    requires count { length size.now.writes.items ≡ length full.now }
    requires writes { AreSmall size.now.writes.items }
    ensures { IfOk result (AreNewCells config.now full.now size.now) }
{
    let (bank, passes, hands) = Bank::new(rt, alloc, full, size.writes.as_slice())?;
    let readers = sets_read(config);
    let (targets, keeper, watches) = Targets::new(
        rt,
        alloc,
        config.dataset.as_slice(),
        readers.as_slice(),
        size.ticks + 1,
    )?;
    Ok(Cells {
        bank,
        passes,
        hands,
        targets,
        keeper,
        watches,
    })
}

/// A session of these data sets before its first step, with new passes.
fn new_session<'c>(
    alloc: Global,
    config: &'c Config,
    size: &Size,
    sets: Sets,
    passes: Passes,
    keeper: Keeper,
) -> Result<Session<'c>, NoMemory>
    requires good { IsGood config.now }
    requires ticks { size.now.ticks ≤ life_ticks }
    requires appends { AreAppends config.now config.now.dataset size.now.appends.items }
    requires sets { AreNewSets config.now size.now.appends.items sets }
    requires passes { AreNewPasses (length config.now.dataset) None passes }
    requires keeper { AreNewPasses (length (readers config.now)) (Some 0) keeper }
    ensures { IfOk result (IsNewSession config.now size.now passes keeper) }
{
    let turns = size.ticks + 1;
    let samples = Samples::new(alloc, passes, sets.metas.len())?;
    let stores = Stores::new(alloc, keeper, sets_read(config).len())?;
    let round = Round::open(alloc, config, turns, size.logged)?;
    let left = Left {
        ticks: turns,
        pumps: 0,
        stores: turns,
        logged: size.logged,
        is_closed: false,
    };
    Ok(Session {
        config,
        left,
        sets,
        samples,
        round,
        stores,
    })
}

/// The data set of each reader, over all read groups in order.
fn sets_read(config: &Config) -> ArrayVec<u8, 16>
    requires few { length (readers config.now) ≤ 16 }
    ensures { result.items ≡ map (λ reader. reader.dataset) (readers config.now) }
{
    let mut sets = ArrayVec::new();
    for group in config.readgroup.as_slice() {
        add_sets(&mut sets, group.reader.as_slice());
    }
    sets
}

/// The data set of each of these readers, after the others.
fn add_sets(sets: &mut ArrayVec<u8, 16>, readers: &[ReaderPart])
    requires room { array_vec_len sets.old + length readers.now ≤ 16 }
    ensures { sets.new.items ≡ sets.old.items ++ map (λ reader. reader.dataset) readers.now }
{
    for reader in readers {
        sets.push(reader.dataset);
    }
}
