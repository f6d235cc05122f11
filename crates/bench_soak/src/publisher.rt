//! The publisher's side.
ghost use Rattle.std.specs.Prelude.{◌≡◌, ◌<◌, ◌≤◌, ◌^◌, IfOk, length};
ghost use Rattle.writer_group.specs.Standing.{AreRowsOf, IsGood, IsReserved, datagrams_in};
ghost use Rattle.bench_soak.specs.Sides.{IsPublisher};

use crate::configuration::WRITERS;
use crate::fault::Fault;
use crate::keys::ring_at;
use message_guard::Sender;
use ps_config::Config;
use std::alloc::Global;
use writer_group::{Datagrams, Group, Sampled};

/// Four bytes that begin each nonce.
const RANDOM: [u8; 4] = [0x5a, 0x17, 0xc3, 0x09];

/// The configuration's first group with its sender. All writers are on.
#[derive(Drop)]
pub struct Publisher {
    group: Group,
    sender: Sender,
    on: [bool; WRITERS],
    /// The datagrams of the last turn.
    pub out: Datagrams,
    /// How often the sender went on to another token.
    pub rollovers: u64,
    /// How often the sender's ring was renewed.
    pub renewals: u64,
}

impl Publisher {
    /// For so many turns, of which no log keeps any.
    pub fn new(alloc: Global, config: &Config, turns: u64) -> Result<Publisher, Fault>
        requires good { IsGood config.now }
        requires group { 0 < length config.now.group }
        requires turns { turns ≤ 2 ^ 62 }
        ensures { IfOk result (IsPublisher config.now) }
    {
        Ok(Publisher {
            group: Group::lasting(alloc, config, 0, turns, 0)?,
            sender: Sender::new(ring_at(0)?, RANDOM, 1, 0),
            on: [true; WRITERS],
            out: Datagrams::new(alloc)?,
            rollovers: 0,
            renewals: 0,
        })
    }

    /// Goes on with the ring of this moment.
    pub fn renew(&mut self, _config: &Config, moment: u64) -> Result<(), Fault>
        requires { IsPublisher _config.now self.old }
        ensures { IsPublisher _config.now self.new }
    {
        self.sender.renew(ring_at(moment)?);
        self.renewals = self.renewals.saturating_add(1);
        Ok(())
    }

    /// The turn with this number, with the rows of its data sets. Tells how many datagrams it made.
    pub fn turn(
        &mut self,
        config: &Config,
        turn: u64,
        moment: u64,
        rows: &[Sampled],
    ) -> Result<u32, Fault>
        requires publisher { IsPublisher config.now self.old }
        requires rows { AreRowsOf config.now.dataset rows.now }
        ensures publisher { IsPublisher config.now self.new }
        ensures count { IfOk result (λ count. count ≡ length (datagrams_in self.new.out)) }
    {
        if self.sender.turn_to(moment) {
            self.rollovers = self.rollovers.saturating_add(1);
        }
        if !self
            .group
            .may_tick(config, rows, &self.on, Some(&self.sender))
        {
            return Err(Fault::NoTurn { turn });
        }
        let metas = config.dataset.as_slice();
        let sender = Some(&mut self.sender);
        let out = &mut self.out;
        Ok(
            self.group
                .tick(config, metas, moment, rows, &self.on, sender, false, out),
        )
    }
}
