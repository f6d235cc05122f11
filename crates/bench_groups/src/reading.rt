//! Datagrams that a read group takes, one after another.
ghost use Rattle.std.specs.Prelude.{◌<◌, length};
ghost use Rattle.bench_groups.specs.Taking.{MayTake};

use bench_base::Unmeasured;
use ps_config::{Config, MOST_READERS, read_config};
use reader_group::{ReaderGroup, Refusal, Taken};
use std::alloc::Global;

/// What became of the datagrams of one run.
#[derive(Clone, Copy)]
struct Sums {
    matched: u32,
    refused: u32,
}

/// Gives the configuration's first read group the datagrams, of which each ends where `ends` says and the next one begins. All its
/// readers are on. Answers how many messages were given to readers, 2^32 for each datagram that was refused, and all words of the
/// rows that are held in the end; 0 where nothing is measured.
#[unsafe(no_mangle)]
pub extern "C" fn bench_datagrams(
    alloc: Global,
    config: &[u8],
    ends: &[u32],
    datagrams: &mut [u8],
) -> u64 {
    sum_of(alloc, config, ends, datagrams).unwrap_or(0)
}

fn sum_of(
    alloc: Global,
    config: &[u8],
    ends: &[u32],
    datagrams: &mut [u8],
) -> Result<u64, Unmeasured> {
    let Ok(config) = read_config(alloc, config) else {
        return Err(Unmeasured);
    };
    let [part, ..] = config.readgroup.as_slice() else {
        return Err(Unmeasured);
    };
    let count = part.reader.as_slice().len();
    if count > MOST_READERS {
        return Err(Unmeasured);
    }
    let on = vec![in alloc; true; count]?;
    let mut group = ReaderGroup::new(alloc, &config, 0)?;
    let sums = take(&mut group, &config, &on, ends, datagrams);
    let told = u64::from(sums.matched).wrapping_add(u64::from(sums.refused) << 32);
    Ok(told.wrapping_add(words_of(&group, &config, &on)))
}

fn take(
    group: &mut ReaderGroup,
    config: &Config,
    on: &[bool],
    ends: &[u32],
    datagrams: &mut [u8],
) -> Sums
    requires { MayTake config.now on.now group.old }
    ensures { MayTake config.now on.now group.new }
{
    let mut sums = Sums {
        matched: 0,
        refused: 0,
    };
    let mut start = 0;
    let mut moment: u64 = 0;
    for end in ends {
        let end = *end as usize;
        if start > end || end > datagrams.len() {
            return sums;
        }
        moment = moment.wrapping_add(100);
        let answer = take_one(group, config, moment, on, &mut datagrams[start..end]);
        sums.add(&answer);
        start = end;
    }
    sums
}

fn take_one(
    group: &mut ReaderGroup,
    config: &Config,
    moment: u64,
    on: &[bool],
    datagram: &mut [u8],
) -> Result<Taken, Refusal>
    requires { MayTake config.now on.now group.old }
    ensures { MayTake config.now on.now group.new }
{
    group.datagram(config, moment, on, datagram)
}

impl Sums {
    fn add(&mut self, answer: &Result<Taken, Refusal>) {
        match answer {
            Ok(taken) => self.matched = self.matched.wrapping_add(taken.matched),
            Err(_) => self.refused = self.refused.wrapping_add(1),
        }
    }
}

/// All words of the rows that the readers hold.
fn words_of(group: &ReaderGroup, config: &Config, on: &[bool]) -> u64
    requires { MayTake config.now on.now group.now }
{
    let mut sum: u64 = 0;
    for index in 0..on.len() {
        sum = sum.wrapping_add(words_at(group, config, on, index));
    }
    sum
}

fn words_at(group: &ReaderGroup, config: &Config, on: &[bool], index: usize) -> u64
    requires may { MayTake config.now on.now group.now }
    requires index { index < length on.now }
{
    let Some(row) = group.reader(index as u8).row() else {
        return 0;
    };
    let mut sum: u64 = 0;
    for word in &row.words {
        sum = sum.wrapping_add(*word);
    }
    sum
}
