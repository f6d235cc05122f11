//! What a configuration lists.
ghost use Rattle.std.specs.Prelude.{◌≡◌, IfNone, IfSome, None};
ghost use Rattle.uapubsub_c.specs.Listing.{HasCount, IsNamed, list_with};

use dataset_meta::Name32;
use ps_config::Config;

/// A list of a configuration whose parts have names.
#[derive(Clone, Copy)]
pub enum Listed {
    DataSets,
    /// Those of a data set.
    Fields,
    KeyGroups,
    Groups,
    /// Those of a group.
    Writers,
    ReadGroups,
    /// Those of a read group.
    Readers,
}

impl Listed {
    /// The list with this number of `include/uapubsub.h`.
    pub fn numbered(number: u32) -> Option<Listed>
        ensures { result ≡ list_with number }
    {
        match number {
            0 => Some(Listed::DataSets),
            1 => Some(Listed::Fields),
            2 => Some(Listed::KeyGroups),
            3 => Some(Listed::Groups),
            4 => Some(Listed::Writers),
            5 => Some(Listed::ReadGroups),
            6 => Some(Listed::Readers),
            _ => None,
        }
    }

    /// How many parts it has, of the data set, the group or the read group with this index. None where there isn't such a one.
    pub fn count(self, config: &Config, of: usize) -> Option<usize>
        ensures count { IfSome result (HasCount config.now self of) }
        ensures none { IfNone result ((count : _) → ¬ HasCount config.now self of count) }
    {
        let metas = config.dataset.as_slice();
        let groups = config.group.as_slice();
        let readgroups = config.readgroup.as_slice();
        match self {
            Listed::DataSets => Some(metas.len()),
            Listed::Fields => Some(metas.get(of)?.fields().len()),
            Listed::KeyGroups => Some(config.keygroup.as_slice().len()),
            Listed::Groups => Some(groups.len()),
            Listed::Writers => Some(groups.get(of)?.writer.as_slice().len()),
            Listed::ReadGroups => Some(readgroups.len()),
            Listed::Readers => Some(readgroups.get(of)?.reader.as_slice().len()),
        }
    }

    /// The name of the part with this index. None where there is no such part.
    pub fn name(self, config: &Config, of: usize, index: usize) -> Option<Name32>
        ensures named { IfSome result (IsNamed config.now self of index) }
        ensures none { IfNone result ((name : _) → ¬ IsNamed config.now self of index name) }
    {
        let metas = config.dataset.as_slice();
        let groups = config.group.as_slice();
        let readgroups = config.readgroup.as_slice();
        match self {
            Listed::DataSets => Some(*metas.get(index)?.name()),
            Listed::Fields => Some(metas.get(of)?.fields().get(index)?.name),
            Listed::KeyGroups => Some(config.keygroup.as_slice().get(index)?.name),
            Listed::Groups => Some(groups.get(index)?.name),
            Listed::Writers => Some(groups.get(of)?.writer.as_slice().get(index)?.name),
            Listed::ReadGroups => Some(readgroups.get(index)?.name),
            Listed::Readers => Some(readgroups.get(of)?.reader.as_slice().get(index)?.name),
        }
    }
}
