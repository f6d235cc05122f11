//! What the lines before a line have done.
ghost use Rattle.std.specs.Prelude.{◌≡◌, ◌≢◌, ◌<◌, length, Some, false, unwrap_or, IfOk, OnOk};
ghost use Rattle.ps_script.specs.declared.verbs.Verb.TheVariants.{Append};
ghost use Rattle.ps_config.specs.Sound.{IsSound};
ghost use Rattle.ps_script.specs.Names.{component_named};
ghost use Rattle.ps_script.specs.Texts.{word};
ghost use Rattle.ps_script.specs.Verbs.{verb_of};
ghost use Rattle.ps_script.specs.Past.{done_by, nothing_done, done_with, after};
ghost use Rattle.ps_script.specs.Faults.{is_past_limit};
ghost use Rattle.ps_script.specs.Given.{HasNames};

use crate::names::{component_names, named, reader_names};
use crate::numbers::number_at;
use crate::shapes::LAST_DATAGRAM;
use crate::texts::word;
use crate::verbs::Verb;
use dataset_meta::{Meta, Name32, copies};
use ps_config::Config;
use std::alloc::{AllocError, Global};

/// What a script is read for.
#[derive(Drop)]
pub(crate) struct Given<'a> {
    pub(crate) config: &'a Config,
    /// Whether links have fates.
    pub(crate) takes_fates: bool,
    /// The names of all components, in the order of their ids.
    pub(crate) components: Vec<Name32>,
    /// The names of all readers, in order.
    pub(crate) readers: Vec<Name32>,
}

impl Given<'_> {
    #[tactic(auto, using(crate::proofs::Counts::few_components, crate::proofs::Counts::few_readers))]
    pub(crate) fn new(
        alloc: Global,
        config: &Config,
        takes_fates: bool,
    ) -> Result<Given, AllocError>
        requires { IsSound config.now }
        ensures names { IfOk result HasNames }
        ensures config { IfOk result (λ given. given.config.now ≡ config.now) }
        ensures takes_fates { IfOk result (λ given. given.takes_fates ≡ takes_fates) }
    {
        Ok(Given {
            config,
            takes_fates,
            components: component_names(alloc, config)?,
            readers: reader_names(alloc, config)?,
        })
    }

    /// The id of the component that a line switches.
    pub(crate) fn component(&self, line: &[u8]) -> usize
        requires { HasNames self.now }
        ensures id { result
            ≡ unwrap_or (component_named self.now.config.now (word 1 line.now)) 0 }
        ensures bound { result < 64 }
    {
        match named(&self.components, word(line, 1)) {
            Some(id) => id,
            None => 0,
        }
    }
}

/// What the lines before a line have done.
#[derive(Drop)]
pub(crate) struct Past {
    /// The data sets with the fields that were appended.
    pub(crate) metas: Vec<Meta>,
    /// Which components are enabled, by their ids.
    pub(crate) enabled: [bool; 64],
    pub(crate) ticks: u32,
    pub(crate) writes: u32,
    pub(crate) watches: u32,
    pub(crate) appends: u32,
    /// The datagrams that have a fate.
    pub(crate) fated: Vec<u64>,
}

impl Past {
    /// Nothing.
    #[tactic(auto, unfolding(crate::specs::Past::nothing_done))]
    pub(crate) fn new(alloc: Global, config: &Config) -> Result<Past, AllocError>
        ensures { IfOk result (λ past. done_by past ≡ nothing_done config.now) }
    {
        Ok(Past {
            metas: copies(alloc, config.dataset.as_slice())?,
            enabled: [true; 64],
            ticks: 0,
            writes: 0,
            watches: 0,
            appends: 0,
            fated: Vec::new(alloc),
        })
    }

    /// Does what a line does that appends nothing.
    pub(crate) fn pass(
        &mut self,
        given: &Given,
        verb: Option<Verb>,
        line: &[u8],
    ) -> Result<(), AllocError>
        requires names { HasNames given.now }
        requires few { is_past_limit (done_by self.old) verb ≡ false }
        requires other { verb ≢ Some Append }
        ensures kept { length self.new.metas.items ≡ length self.old.metas.items }
        ensures done { OnOk result (done_by self.new
            ≡ done_with given.now.config.now (done_by self.old) line.now verb) }
    {
        match verb {
            Some(Verb::Write) => self.writes += 1,
            Some(Verb::Tick) => self.ticks += 1,
            Some(Verb::Watch) => self.watches += 1,
            Some(Verb::Enable) => self.enabled[given.component(line)] = true,
            Some(Verb::Disable) => self.enabled[given.component(line)] = false,
            Some(Verb::Fate) => self.fated.push(number_at(word(line, 1), 0, LAST_DATAGRAM))?,
            Some(Verb::Append) | None => {}
        }
        Ok(())
    }
}
