//! Turns of a group of writers, made many times.
ghost use Rattle.std.specs.Prelude.{◌≤◌, ◌<◌, ◌+◌, List, IfOk, length};
ghost use Rattle.writer_group.specs.Standing.{IsGood, IsReserved, datagrams_in};
ghost use Rattle.dataset_meta.specs.Metas.{MetaData};
ghost use Rattle.bench_groups.specs.Running.{AreRows, IsOnFor, MayTurn};

use crate::rows::rows_of;
use crate::senders::sender_of;
use bench_base::Unmeasured;
use message_guard::Sender;
use ps_config::{Config, read_config};
use std::alloc::Global;
use writer_group::{Datagrams, Group, Sampled};

/// The value of the middle field at every other turn, where rows change.
const CHANGED: u32 = 7;

/// A group's turns of one run, with what they are given.
#[derive(Drop)]
struct Run {
    group: Group,
    sender: Option<Sender>,
    on: Vec<bool>,
    // the rows of the turns that are counted 0, 2, 4 and so on, and those of the others
    even: Vec<Sampled>,
    odd: Vec<Sampled>,
    out: Datagrams,
}

/// `turns` turns of the configuration's first group, and one more, the first of them with key frames. All writers are on, and
/// where `changes` isn't 0 the middle field of each data set, of the kind UInt32, changes at each turn. The datagrams of the last
/// turn are laid one after another into `last`, as far as it has room. Answers how many datagrams all turns made; 0 where nothing
/// is measured.
#[unsafe(no_mangle)]
pub extern "C" fn bench_turns(
    alloc: Global,
    config: &[u8],
    changes: u8,
    turns: u16,
    last: &mut [u8],
) -> u64 {
    turns_of(alloc, config, changes, turns, last).unwrap_or(0)
}

fn turns_of(
    alloc: Global,
    config: &[u8],
    changes: u8,
    turns: u16,
    last: &mut [u8],
) -> Result<u64, Unmeasured> {
    let Ok(config) = read_config(alloc, config) else {
        return Err(Unmeasured);
    };
    if config.group.as_slice().is_empty() {
        return Err(Unmeasured);
    }
    let turns = u32::from(turns);
    let mut run = begin(alloc, &config, changes, turns + 1)?;
    let made = run.take(&config, turns)?;
    let count = run.turn(&config, turns)?;
    lay(&run.out, count, last);
    Ok(made.wrapping_add(u64::from(count)))
}

fn begin(alloc: Global, config: &Config, changes: u8, turns: u32) -> Result<Run, Unmeasured>
    requires good { IsGood config.now }
    requires group { 0 < length config.now.group }
    ensures { IfOk result (MayTurn config.now turns) }
{
    let metas = config.dataset.as_slice();
    let other = if changes == 0 { 0 } else { CHANGED };
    let group = Group::new(alloc, config, 0, turns)?;
    let sender = sender_of(config)?;
    let on = all_on(alloc, config)?;
    let even = rows_of(alloc, metas, 0)?;
    let odd = rows_of(alloc, metas, other)?;
    let out = Datagrams::new(alloc)?;
    Ok(Run {
        group,
        sender,
        on,
        even,
        odd,
        out,
    })
}

/// A truth value for each writer of the first group.
fn all_on(alloc: Global, config: &Config) -> Result<Vec<bool>, Unmeasured>
    requires { 0 < length config.now.group }
    ensures { IfOk result (λ on. IsOnFor config.now on.items) }
{
    let count = config.group.as_slice()[0].writer.as_slice().len();
    Ok(vec![in alloc; true; count]?)
}

impl Run {
    ghost use Rattle.std.specs.Prelude.{◌≡◌, ◌+◌, ℕ, IfOk, OnOk, length};
    ghost use Rattle.writer_group.specs.Standing.{datagrams_in};
    ghost use Rattle.bench_groups.specs.Running.{MayTurn};

    /// So many turns, one after another. Tells how many datagrams they made.
    fn take(&mut self, config: &Config, turns: u32) -> Result<u64, Unmeasured>
        requires { MayTurn config.now (turns + 1) self.old }
        ensures { OnOk result (MayTurn config.now 1 self.new) }
    {
        let mut made: u64 = 0;
        for turn in 0..turns {
            let count = self.turn(config, turn)?;
            made = made.wrapping_add(u64::from(count));
        }
        Ok(made)
    }

    /// The turn with this index. Tells how many datagrams it made.
    fn turn(&mut self, config: &Config, index: u32) -> Result<u32, Unmeasured>
        requires { MayTurn config.now 1 self.old }
        ensures goes_on { (turns : ℕ) → MayTurn config.now (turns + 1) self.old
            → OnOk result (MayTurn config.now turns self.new) }
        ensures count { IfOk result (λ count. count ≡ length (datagrams_in self.new.out)) }
    {
        let metas = config.dataset.as_slice();
        let moment = 100 * u64::from(index);
        let rows = rows_at(&self.even, &self.odd, index);
        let out = &mut self.out;
        match &mut self.sender {
            None => Ok(
                self.group
                    .tick(config, metas, moment, rows, &self.on, None, false, out),
            ),
            Some(sender) if sender.spent() => Err(Unmeasured),
            Some(sender) => {
                let on = &self.on;
                Ok(
                    self.group
                        .tick(config, metas, moment, rows, on, Some(sender), false, out),
                )
            }
        }
    }
}

fn rows_at<'a>(even: &'a [Sampled], odd: &'a [Sampled], index: u32) -> &'a [Sampled]
    ensures { (metas : List MetaData) → AreRows metas even.now → AreRows metas odd.now
        → AreRows metas result.now }
{
    if index % 2 == 0 { even } else { odd }
}

/// Lays the datagrams of the last turn one after another, as far as there is room.
fn lay(out: &Datagrams, count: u32, bytes: &mut [u8])
    requires reserved { IsReserved out.now }
    requires count { count ≤ length (datagrams_in out.now) }
{
    let mut at = 0;
    for index in 0..count {
        let datagram = out.get(index);
        if datagram.len() > bytes.len() - at {
            return;
        }
        bytes[at..at + datagram.len()].copy_from_slice(datagram);
        at += datagram.len();
    }
}
