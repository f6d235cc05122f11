//! All groups of writers of a configuration.
ghost use Rattle.std.specs.Prelude.{◌≡◌, IfOk};
ghost use Rattle.writer_group.specs.Standing.{IsGood};
ghost use Rattle.cases_group.specs.Kept.{AreTurners, GrowsAt};

use crate::turners::Turner;
use case_lines::LineFault;
use dataset_meta::Meta;
use ps_config::Config;
use std::alloc::Global;

/// The groups before their first turns.
pub fn turners_of<'c>(
    alloc: Global,
    config: &'c Config,
    metas: &[Meta],
) -> Result<Vec<Turner<'c>>, LineFault>
    requires good { IsGood config.now }
    requires metas { metas.now ≡ config.now.dataset }
    ensures { IfOk result (λ turners. AreTurners config.now metas.now turners.items) }
{
    let mut turners = Vec::new(alloc);
    for index in 0..config.group.as_slice().len() as u8 {
        turners.push(Turner::new(alloc, config, metas, index)?)?;
    }
    Ok(turners)
}

/// All groups, where a data set has a field more.
pub fn grown_turners<'c>(
    alloc: Global,
    config: &Config,
    old: &[Meta],
    new: &[Meta],
    set: usize,
    turners: Vec<Turner<'c>>,
) -> Result<Vec<Turner<'c>>, LineFault>
    requires turners { AreTurners config.now old.now turners.items }
    requires grows { GrowsAt set old.now new.now }
    ensures { IfOk result (λ grown. AreTurners config.now new.now grown.items) }
{
    let mut done = Vec::new(alloc);
    for turner in turners {
        done.push(turner.grown(config, old, new, set)?)?;
    }
    Ok(done)
}

/// The writers of the groups of a key group are fresh.
pub fn refresh_all(config: &Config, metas: &[Meta], groups: &mut Vec<Turner<'_>>, keygroup: usize)
    requires { AreTurners config.now metas.now groups.old.items }
    ensures { AreTurners config.now metas.now groups.new.items }
{
    for index in 0..groups.len() {
        groups[index].refresh_all(config, metas, keygroup);
    }
}
