//! The opening of a gateway.
ghost use Rattle.std.specs.Prelude.{◌≡◌, ◌≤◌, ◌+◌, [], ℕ, List, IfOk};
ghost use Rattle.writer_group.specs.Standing.{IsGood};
ghost use Rattle.session_model.specs.Counts.{life_ticks};
ghost use Rattle.gateway_core.specs.Sources.{HaveSources};
ghost use Rattle.gateway_core.specs.Holding.{IsGateway, left_of, logged_of, opening_left, sources_of};
ghost use Rattle.gateway_core.specs.Standing.{Stands};

use crate::collected::Collected;
use crate::gateway::{Gateway, Left};
use crate::sources::sources_in;
use ps_config::Config;
use session_parts::Round;
use std::alloc::Global;
use ua_base::NoMemory;

impl<'c> Gateway<'c> {
    /// A gateway of the second configuration, each of whose data sets has a source in the first,
    /// for so many ticks, the closing one included, and for as many collects. Each writer logs its
    /// first `logged` data frames, and of each source the versions of as many stores are kept: all
    /// memory is taken here. An error says that it ran out.
    pub fn open(
        alloc: Global,
        first: &Config,
        second: &'c Config,
        turns: u64,
        logged: u32,
    ) -> Result<Gateway<'c>, NoMemory>
        requires first { IsGood first.now }
        requires second { IsGood second.now }
        requires sources { (sources : List ℕ) × HaveSources first.now second.now sources }
        requires turns { turns ≤ life_ticks + 1 }
        ensures gateway { IfOk result IsGateway }
        ensures left { IfOk result (λ s. left_of s ≡ opening_left turns) }
        ensures logged { IfOk result (λ s. logged_of s ≡ logged) }
        ensures sources { IfOk result (λ s. HaveSources first.now second.now (sources_of s)) }
        ensures stands { IfOk result (λ s. Stands second.now [] s) }
    {
        let sources = sources_in(alloc, first, second)?;
        let collected = Collected::new(alloc, sources, logged)?;
        let round = Round::open(alloc, second, turns, logged)?;
        let left = Left {
            turns,
            ticks: turns,
            collects: turns,
            pumps: 0,
            is_closed: false,
        };
        Ok(Gateway {
            config: second,
            left,
            collected,
            round,
        })
    }
}
