//! The writers' side: rows, groups, senders, and the datagrams that were made.
ghost use Rattle.writer_group.specs.Standing.{IsGood};

use crate::calls::Publishing as Call;
use crate::groups::{grown_turners, refresh_all, turners_of};
use crate::growth::{field_of, grown_sets};
use crate::pulls::pulled_ring;
use crate::senders::{has_kept, has_turned, senders_of};
use crate::sets::{opening_rows, write};
use crate::shown::{made_text, version_text};
use crate::turners::{Turner, Turning};
use case_lines::{Answer, CaseLine, LineFault, Told, said, yes_or_no};
use dataset_meta::{Field, Meta, copies};
use message_guard::Sender;
use ps_config::Config;
use std::alloc::Global;
use std::marker::Model;
use std::mem;
use writer_group::{Datagrams, Sampled};

/// All groups of writers of a configuration, and what they have made.
#[derive(Drop)]
pub struct Publishing<'c> {
    config: &'c Config,
    alloc: Global,
    metas: Vec<Meta>,
    rows: Vec<Sampled>,
    groups: Vec<Turner<'c>>,
    senders: Vec<Sender>,
    out: Datagrams,
    made: Vec<Vec<u8>>,
}

impl<'c> Model for Publishing<'c> {
    ghost use Rattle.ps_config.specs.declared.parts.Config.{Config as ConfigValue};
    ghost use Rattle.cases_group.specs.Kept.{IsPublishing};

    ghost Value = { ConfigValue };

    ghost view = { λ p. p.config.now };

    ghost invariant = { λ p. IsPublishing p.config.now p.metas.items p.rows.items p.groups.items p.senders.items p.out };
}

impl<'c> Publishing<'c> {
    /// The groups before their first turns.
    pub fn new(alloc: Global, config: &'c Config) -> Result<Publishing<'c>, LineFault>
        requires { IsGood config.now }
    {
        let metas = copies(alloc, config.dataset.as_slice())?;
        let rows = opening_rows(alloc, &metas)?;
        let groups = turners_of(alloc, config, &metas)?;
        let senders = senders_of(alloc, config.keygroup.as_slice())?;
        let Ok(out) = Datagrams::new(alloc) else {
            return Err(LineFault::Memory);
        };
        Ok(Publishing {
            config,
            alloc,
            metas,
            rows,
            groups,
            senders,
            out,
            made: Vec::new(alloc),
        })
    }

    /// The datagrams that were made.
    pub fn made(&self) -> &[Vec<u8>] {
        &self.made
    }

    pub fn answer(&mut self, call: Call, line: &mut CaseLine) -> Answer {
        let index = usize::from(line.u8());
        match call {
            Call::Turn | Call::Closing | Call::Sizes => self.turn(call, index, line),
            Call::Write => self.write(index, line),
            Call::Append => self.append(index, line),
            Call::Spent => self.spent(index),
            Call::Pull => self.pull(index, line),
            Call::Due => self.due(index, line.u64()),
            Call::Refresh => self.refresh(index, line.u8()),
            Call::Log => self.log(index, line.u8()),
        }
    }

    /// `SET INDEX:X ..`: fields of a data set get values, `INDEX:!S=X` with a status; tells the row's version
    fn write(&mut self, set: usize, line: &CaseLine) -> Answer {
        let version = write(&self.metas, &mut self.rows, set, line)?;
        version_text(self.alloc, version)
    }

    /// `SET NAME KIND`, or `SET NAME KIND CAP`: the data set has a field more, and its writers are fresh
    fn append(&mut self, set: usize, line: &mut CaseLine) -> Answer {
        let field = field_of(line)?;
        self.grow(set, field)?;
        said(self.alloc, "done")
    }

    fn grow(&mut self, set: usize, field: Field) -> Result<(), LineFault> {
        let grown = grown_sets(self.alloc, &self.metas, &self.rows, set, field)?;
        let turners = mem::replace(&mut self.groups, Vec::new(self.alloc));
        self.groups = grown_turners(
            self.alloc,
            self.config,
            &self.metas,
            &grown.metas,
            set,
            turners,
        )?;
        self.rows = grown.rows;
        self.metas = grown.metas;
        Ok(())
    }

    /// `NOW`: each sender turns to the moment, and where its token changed the writers of its groups are fresh
    pub fn moment(&mut self, now: u64) -> Answer {
        let mut told = Told::new(self.alloc);
        for index in 0..self.senders.len() {
            if self.turned_to(index, now) {
                let mark = if told.is_empty() { "new token " } else { " " };
                told.named(mark, Some(index));
            }
        }
        told.answer_or("same tokens")
    }

    /// Turns a sender to a moment; tells whether its token changed.
    fn turned_to(&mut self, index: usize, now: u64) -> bool {
        if index >= self.senders.len() {
            return false;
        }
        let has_changed = has_turned(&mut self.senders[index], now);
        if has_changed {
            refresh_all(self.config, &self.metas, &mut self.groups, index);
        }
        has_changed
    }

    /// `KEYGROUP`: whether its sender is spent
    fn spent(&self, keygroup: usize) -> Answer {
        match self.senders.get(keygroup) {
            Some(sender) => yes_or_no(self.alloc, sender.spent()),
            None => Err(LineFault::Condition),
        }
    }

    /// `KEYGROUP SERVED COUNT NOW`: its sender goes on with a ring that is pulled; whether that keeps its token, the token, and its
    /// last number
    fn pull(&mut self, keygroup: usize, line: &mut CaseLine) -> Answer {
        let ring = pulled_ring(self.config.keygroup.as_slice(), line)?;
        if keygroup >= self.senders.len() {
            return Err(LineFault::Condition);
        }
        let kept = has_kept(&mut self.senders[keygroup], ring);
        let (token, used) = self.senders[keygroup].standing();
        let mut told = Told::new(self.alloc);
        told.say(if kept { "kept" } else { "lost" });
        told.fill(" # #", &[token as u64, used as u64]);
        told.answer()
    }

    /// `GROUP NOW`: whether a turn is due
    fn due(&self, index: usize, now: u64) -> Answer {
        match self.groups.get(index) {
            Some(group) => yes_or_no(self.alloc, group.is_due(now)),
            None => Err(LineFault::Condition),
        }
    }

    /// `GROUP WRITER`: place and version of each of its data frames
    fn log(&self, index: usize, writer: u8) -> Answer {
        if index >= self.groups.len() {
            return Err(LineFault::Condition);
        }
        self.groups[index].log(self.alloc, self.config, &self.metas, writer)
    }

    /// `GROUP WRITER`: makes a writer fresh
    fn refresh(&mut self, index: usize, writer: u8) -> Answer {
        if index >= self.groups.len() {
            return Err(LineFault::Condition);
        }
        self.groups[index].refresh(self.config, &self.metas, writer);
        said(self.alloc, "done")
    }

    /// `GROUP NOW ON`: the datagrams of a turn, which is the closing one or another, or their lengths
    fn turn(&mut self, call: Call, index: usize, line: &mut CaseLine) -> Answer {
        let now = line.u64();
        let on = switches(self.alloc, line.word())?;
        let turning = Turning {
            now,
            on: &on,
            closing: matches!(call, Call::Closing),
        };
        let count = self.had_turn(index, &turning)?;
        let made = last(&self.made, count);
        made_text(self.alloc, made, !matches!(call, Call::Sizes))
    }

    /// A turn; tells how many datagrams it made.
    fn had_turn(&mut self, index: usize, turning: &Turning<'_>) -> Result<u32, LineFault> {
        if index >= self.groups.len() {
            return Err(LineFault::Condition);
        }
        match self.groups[index].keygroup() {
            None => self.open_turn(index, turning),
            Some(keygroup) => self.secured_turn(index, usize::from(keygroup), turning),
        }
    }

    fn open_turn(&mut self, index: usize, turning: &Turning<'_>) -> Result<u32, LineFault> {
        if index >= self.groups.len() {
            return Err(LineFault::Condition);
        }
        self.groups[index].turn(
            self.alloc,
            self.config,
            &self.metas,
            &self.rows,
            turning,
            &mut self.out,
            &mut self.made,
        )
    }

    fn secured_turn(
        &mut self,
        index: usize,
        keygroup: usize,
        turning: &Turning<'_>,
    ) -> Result<u32, LineFault> {
        if index >= self.groups.len() || keygroup >= self.senders.len() {
            return Err(LineFault::Condition);
        }
        self.groups[index].secured_turn(
            self.alloc,
            self.config,
            &self.metas,
            &self.rows,
            turning,
            &mut self.senders[keygroup],
            &mut self.out,
            &mut self.made,
        )
    }
}

/// The last of the datagrams that were made.
fn last(made: &[Vec<u8>], count: u32) -> &[Vec<u8>] {
    &made[made.len().saturating_sub(count as usize)..]
}

/// `1` and `0` for each, or `-` for none.
pub fn switches(alloc: Global, word: &str) -> Result<Vec<bool>, LineFault> {
    let mut on = Vec::new(alloc);
    if word == "-" {
        return Ok(on);
    }
    for byte in word.as_bytes() {
        on.push(*byte == b'1')?;
    }
    Ok(on)
}
