//! Read groups with the readers that are enabled.
ghost use Rattle.std.specs.Prelude.{◌≡◌, ◌<◌, length, slice_index_or};
ghost use Rattle.writer_group.specs.Standing.{IsGood};

use crate::calls::Taking as Call;
use crate::damage::damaged;
use crate::publishing::switches;
use crate::pulls::pulled_ring;
use crate::runs::Runs;
use crate::shown::{copied, count, receipt_text, tell_reader};
use case_lines::{
    Answer, CaseLine, Line, LineFault, Numbers, Tally, Told, number, said, told, why_of,
};
use dataset_meta::Meta;
use ps_config::{Config, ReadGroupPart, ReaderPart};
use reader_group::ReaderGroup;
use std::alloc::Global;
use std::marker::Model;

/// A read group of a configuration.
#[derive(Drop)]
pub struct Taker<'c> {
    alloc: Global,
    config: &'c Config,
    part: &'c ReadGroupPart,
    group: ReaderGroup,
    on: Vec<bool>,
}

impl<'c> Model for Taker<'c> {
    ghost use Rattle.ps_config.specs.declared.parts.Config.{Config as ConfigValue};
    ghost use Rattle.std.specs.Prelude.{length};
    ghost use Rattle.cases_group.specs.Kept.{IsTaker};

    ghost Value = { ConfigValue };

    ghost view = { λ t. t.config.now };

    ghost invariant = { λ t. IsTaker t.config.now t.part.now t.group (length t.on.items) };
}

/// All read groups of a configuration.
pub fn takers_of<'c>(alloc: Global, config: &'c Config) -> Result<Vec<Taker<'c>>, LineFault>
    requires { IsGood config.now }
{
    let mut takers = Vec::new(alloc);
    for index in 0..config.readgroup.as_slice().len() as u8 {
        takers.push(Taker::new(alloc, config, index)?)?;
    }
    Ok(takers)
}

impl<'c> Taker<'c> {
    /// The read group before anything, with all readers enabled.
    fn new(alloc: Global, config: &'c Config, index: u8) -> Result<Taker<'c>, LineFault>
        requires good { IsGood config.now }
        requires index { index < length config.now.readgroup }
    {
        let part = part_at(config, index);
        let Ok(group) = ReaderGroup::new(alloc, config, index) else {
            return Err(LineFault::Memory);
        };
        let on = vec![in alloc; true; part.reader.as_slice().len()]?;
        Ok(Taker {
            alloc,
            config,
            part,
            group,
            on,
        })
    }

    pub fn answer(&mut self, made: &[Vec<u8>], call: Call, line: &mut CaseLine) -> Answer {
        match call {
            Call::Reader => self.reader(line.u8()),
            Call::On => self.switch(line.word()),
            Call::Cut => self.cut(line.u8(), line.word()),
            Call::Follow => self.follow(line),
            Call::Expire => self.expire(line.u64()),
            Call::Damaged => self.damaged(made, line),
            Call::Take => self.take(made, line),
            Call::Prefixes => self.prefixes(made, line),
            Call::Bits => self.bits(made, line),
        }
    }

    /// `SERVED COUNT NOW`: its guard goes on with a ring that is pulled
    fn follow(&mut self, line: &mut CaseLine) -> Answer {
        let ring = pulled_ring(self.config.keygroup.as_slice(), line)?;
        self.group.renew(ring);
        said(self.alloc, "done")
    }

    /// `NOW`: timers are looked at
    fn expire(&mut self, now: u64) -> Answer {
        self.group.expire(now);
        said(self.alloc, "done")
    }

    /// `NOW DATAGRAM`: the datagram comes
    fn take(&mut self, made: &[Vec<u8>], line: &mut CaseLine) -> Answer {
        let now = line.u64();
        let bytes = datagram_of(self.alloc, made, line)?;
        Ok(Some(self.given(now, &bytes)?))
    }

    /// These bytes come; it decrypts a copy of them.
    fn given(&mut self, now: u64, bytes: &[u8]) -> Result<String, LineFault> {
        let mut bytes = copied(self.alloc, bytes)?;
        let receipt = self.group.datagram(self.config, now, &self.on, &mut bytes);
        receipt_text(self.alloc, &receipt)
    }

    /// `NOW DATAGRAM`: the first bytes of the datagram come, from none to all but one
    fn prefixes(&mut self, made: &[Vec<u8>], line: &mut CaseLine) -> Answer {
        let now = line.u64();
        let bytes = datagram_of(self.alloc, made, line)?;
        let mut runs = Runs::new(self.alloc);
        for end in 0..bytes.len() {
            let answer = self.given(now, &bytes[..end])?;
            runs.add(answer);
        }
        runs.answer()
    }

    /// `NOW DATAGRAM`: the datagram comes with each of its bits altered in turn
    fn bits(&mut self, made: &[Vec<u8>], line: &mut CaseLine) -> Answer {
        let now = line.u64();
        let mut bytes = datagram_of(self.alloc, made, line)?;
        let mut runs = Runs::new(self.alloc);
        for at in 0..bytes.len() {
            for bit in 0u8..8 {
                bytes[at] ^= 1 << bit;
                let answer = self.given(now, &bytes)?;
                bytes[at] ^= 1 << bit;
                runs.add(answer);
            }
        }
        runs.answer()
    }

    /// `NOW SEED COUNT`: so many datagrams come, random ones and damaged ones of those that were made
    fn damaged(&mut self, made: &[Vec<u8>], line: &mut CaseLine) -> Answer {
        let now = line.u64();
        let mut numbers = Numbers::new(line.u64());
        let times = line.u32();
        let mut tally = Tally::new(self.alloc);
        for _ in 0..times {
            let bytes = damaged(self.alloc, &mut numbers, made)?;
            let answer = self.given(now, &bytes)?;
            count(self.alloc, &mut tally, answer.as_str())?;
        }
        told(self.alloc, &tally)
    }

    /// `READER`: what a reader holds, or why it waits, its breaks, and what the tree of states is told of it
    fn reader(&self, index: u8) -> Answer {
        if usize::from(index) >= self.on.len() {
            return Err(LineFault::Condition);
        }
        let part = reader_at(self.part, index);
        let meta = meta_at(self.config, part.dataset);
        let mut told = Told::new(self.alloc);
        tell_reader(&mut told, meta, self.group.reader(index))?;
        told.say(if self.group.is_late(index) {
            "; late"
        } else {
            ""
        });
        told.say(if self.group.is_ready(index) {
            "; ready"
        } else {
            ""
        });
        told.answer()
    }

    /// `ON`: which readers are enabled
    fn switch(&mut self, word: &str) -> Answer {
        let on = switches(self.alloc, word)?;
        if on.len() != self.on.len() {
            return Err(LineFault::Condition);
        }
        self.on = on;
        said(self.alloc, "done")
    }

    /// `READER WHY`: cuts a reader
    fn cut(&mut self, index: u8, word: &str) -> Answer {
        let why = why_of(word)?;
        if usize::from(index) >= self.on.len() {
            return Err(LineFault::Condition);
        }
        self.group.cut(index, why);
        said(self.alloc, "done")
    }
}

fn part_at(config: &Config, index: u8) -> &ReadGroupPart
    requires { index < length config.now.readgroup }
    ensures { result.now ≡ slice_index_or config.now.readgroup index result.now }
{
    &config.readgroup.as_slice()[usize::from(index)]
}

fn reader_at(part: &ReadGroupPart, index: u8) -> &ReaderPart
    requires { index < length part.now.reader }
    ensures { result.now ≡ slice_index_or part.now.reader index result.now }
{
    &part.reader.as_slice()[usize::from(index)]
}

fn meta_at(config: &Config, set: u8) -> &Meta
    requires { set < length config.now.dataset }
    ensures { result.now ≡ slice_index_or config.now.dataset set result.now }
{
    &config.dataset.as_slice()[usize::from(set)]
}

/// `#K`, the K-th of the datagrams that were made, or its bytes.
fn datagram_of(alloc: Global, made: &[Vec<u8>], line: &mut CaseLine) -> Result<Vec<u8>, LineFault> {
    let text = line.rest();
    let Some(word) = text.strip_prefix('#') else {
        return Line::new(text).bytes(alloc);
    };
    match made.get(number::<usize>(word)?) {
        Some(bytes) => copied(alloc, bytes),
        None => Err(LineFault::Condition),
    }
}
