//! The calls by their names, and the groups that they are of.
ghost use Rattle.writer_group.specs.Standing.{IsGood};

use crate::calls::{CALLS, Call, Taking};
use crate::publishing::Publishing;
use crate::takers::{Taker, takers_of};
use case_lines::{Answer, CaseLine, LineFault, named};
use ps_config::Config;
use std::alloc::Global;

/// All groups of a configuration.
#[derive(Drop)]
pub struct Bench<'c> {
    publishing: Publishing<'c>,
    takers: Vec<Taker<'c>>,
}

impl<'c> Bench<'c> {
    /// The groups before anything.
    pub fn new(alloc: Global, config: &'c Config) -> Result<Bench<'c>, LineFault>
        requires { IsGood config.now }
    {
        Ok(Bench {
            publishing: Publishing::new(alloc, config)?,
            takers: takers_of(alloc, config)?,
        })
    }

    /// `CALL INDEX ..`, with the index of a data set, a group, a key group or a read group; `moment` is of all senders.
    pub fn answer(&mut self, line: &mut CaseLine) -> Answer {
        match named(&CALLS, line.word()) {
            Some(Call::Moment) => self.publishing.moment(line.u64()),
            Some(Call::Publishing(call)) => self.publishing.answer(call, line),
            Some(Call::Taking(call)) => self.taken(call, line),
            None => Err(LineFault::Call),
        }
    }

    /// The calls of read groups.
    fn taken(&mut self, call: Taking, line: &mut CaseLine) -> Answer {
        let index = usize::from(line.u8());
        if index >= self.takers.len() {
            return Err(LineFault::Condition);
        }
        let taker = &mut self.takers[index];
        taker.answer(self.publishing.made(), call, line)
    }
}
