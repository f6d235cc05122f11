//! The device of a configuration, with its bank and its threads.
ghost use Rattle.std.specs.Prelude.{◌≤◌, ◌^◌, All, IfOk};
ghost use Rattle.message_guard.specs.Senders.{IsSender};
ghost use Rattle.ps_config.specs.Sound.{IsKeyGroup};
ghost use Rattle.writer_group.specs.Standing.{IsGood};
ghost use Rattle.example_publisher.specs.Devices.{AreWorkers, IsBank, IsHand, IsPlant, IsWorker};

use crate::device::{Device, Sends};
use crate::filling::{QUOTA, Worker, life_patch, patch_of};
use crate::numbers::Numbers;
use cell_bank::Bank;
use dataset_meta::Meta;
use example_parts::Fault;
use message_guard::Sender;
use ps_config::{Config, KeyGroupPart, ring_of};
use std::alloc::Global;
use std::rt::Files;
use std::sync::Wait;
use version_cell::{Passes, Placed};
use writer_group::{Datagrams, Group};

/// How many threads write.
const THREADS: u8 = 2;

/// A data set with its bank, the threads that write it, and the device that publishes it.
#[derive(Drop)]
pub struct Plant<'c> {
    pub meta: &'c Meta,
    pub bank: Bank,
    pub workers: Vec<Worker>,
    pub device: Device<'c>,
    /// The publishing interval, in milliseconds.
    pub interval: u64,
}

/// The plant of a configuration with one data set, one secured group and one key.
pub fn plant_of<'c, R: Files + Wait>(
    rt: &R,
    alloc: Global,
    config: &'c Config,
    turns: u64,
    name: &str,
) -> Result<Plant<'c>, Fault>
    requires good { IsGood config.now }
    requires turns { turns ≤ 2 ^ 62 }
    ensures plant { IfOk result IsPlant }
{
    let [meta] = config.dataset.as_slice() else {
        return Err(Fault::Unlike);
    };
    let [part] = config.group.as_slice() else {
        return Err(Fault::Unlike);
    };
    let Some(keygroup) = part.keygroup else {
        return Err(Fault::Unlike);
    };
    let keys = &config.keygroup.as_slice()[usize::from(keygroup)];
    let (sender, numbers) = sender_of(rt, alloc, keys, name)?;
    let (bank, passes, mut hands) = Bank::new(rt, alloc, config.dataset.as_slice(), &[[QUOTA; 8]])?;
    mark(rt, &bank, meta, numbers.life(), &mut hands)?;
    let workers = workers_of(alloc, &bank, meta, &mut hands)?;
    let device = Device {
        config,
        group: Group::lasting(alloc, config, 0, turns, 0)?,
        left: turns,
        sender,
        numbers,
        passes,
        on: vec![in alloc; true; part.writer.as_slice().len()]?,
        out: Datagrams::new(alloc)?,
        version: 0,
        sends: Sends { done: 0, failed: 0 },
    };
    Ok(Plant {
        meta,
        bank,
        workers,
        device,
        interval: u64::from(part.interval),
    })
}

/// The sender of a key group with one key, and the numbers that are reserved for it in the file beside the configuration of this name.
/// With a later key the sender would turn to it while it runs, and a restart had to go on under it.
fn sender_of<R: Files>(
    rt: &R,
    alloc: Global,
    keys: &KeyGroupPart,
    name: &str,
) -> Result<(Sender, Numbers), Fault>
    requires keys { IsKeyGroup keys.now }
    ensures sender { IfOk result (λ made. IsSender made.0) }
    ensures reserved { IfOk result (λ made. made.0.used ≤ made.1.reserved) }
{
    let [key] = keys.key.as_slice() else {
        return Err(Fault::Unlike);
    };
    let file = format!(in alloc; "{name}.used")?;
    let numbers = Numbers::new(rt, alloc, file, key.token, keys.used)?;
    let sender = Sender::new(
        ring_of(keys),
        keys.random,
        keys.first_block,
        numbers.passed(),
    );
    Ok((sender, numbers))
}

/// Marks this run's rows, before any thread writes.
fn mark<R: Wait>(
    rt: &R,
    bank: &Bank,
    meta: &Meta,
    life: u32,
    hands: &mut Vec<Passes>,
) -> Result<(), Fault>
    requires bank { IsBank meta.now bank.now }
    requires hands { All (IsHand bank.now) hands.old.items }
    ensures hands { All (IsHand bank.now) hands.new.items }
{
    let patch = life_patch(meta, life)?;
    let Some(mut passes) = hands.pop() else {
        return Err(Fault::Unlike);
    };
    match bank.write(rt, 0, &mut passes, &patch) {
        Placed::Wrote(_) => Ok(()),
        Placed::Full { .. } => Err(Fault::Unlike),
    }
}

/// Threads with a set of passes each, where the data set has the fields that they write.
fn workers_of(
    alloc: Global,
    bank: &Bank,
    meta: &Meta,
    hands: &mut Vec<Passes>,
) -> Result<Vec<Worker>, Fault>
    requires hands { All (IsHand bank.now) hands.old.items }
    ensures workers { IfOk result (λ workers. AreWorkers bank.now workers.items) }
{
    let mut workers = Vec::with_capacity(alloc, usize::from(THREADS))?;
    for number in 0..THREADS {
        let _ = patch_of(alloc, meta, number, 1, 0)?;
        workers.push(worker_of(bank, hands, number)?)?;
    }
    Ok(workers)
}

/// A thread with the last set of passes.
fn worker_of(_bank: &Bank, hands: &mut Vec<Passes>, number: u8) -> Result<Worker, Fault>
    requires hands { All (IsHand _bank.now) hands.old.items }
    ensures hands { All (IsHand _bank.now) hands.new.items }
    ensures worker { IfOk result (IsWorker _bank.now) }
{
    let Some(passes) = hands.pop() else {
        return Err(Fault::Unlike);
    };
    Ok(Worker {
        passes,
        number,
        written: 0,
    })
}
