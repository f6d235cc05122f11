//! What its type says of a configuration's names, by functions that walk through one.
ghost use Rattle.std.specs.Prelude.{All};
ghost use Rattle.ps_config.specs.Sound.{IsSound};
ghost use Rattle.ps_report.specs.Conditions.{readers_of};
ghost use Rattle.report_laws.specs.ReaderNames.{HasName, NamesReaders};

use ps_config::{Config, ReadGroupPart, ReaderPart};

/// Each reader of a sound configuration has a name, and no two have the same.
pub fn readers_are_told_by_their_names(config: &Config)
    requires { IsSound config.now }
    ensures { NamesReaders config.now }
{
    see_groups(config.readgroup.as_slice());
}

fn see_groups(groups: &[ReadGroupPart])
    ensures { All HasName (readers_of groups.now) }
{
    for group in groups {
        see_parts(group.reader.as_slice());
    }
}

fn see_parts(parts: &[ReaderPart])
    ensures { All HasName parts.now }
{
    for part in parts {
        let _name = part.name.as_bytes();
    }
}
