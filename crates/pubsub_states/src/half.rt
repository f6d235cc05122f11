//! The two halves of the tree, which are alike.
ghost use Rattle.std.specs.Prelude.{◌≡◌};

use crate::component::Component;

/// The publishing half of the tree, groups with writers, or the subscribing one, read groups with
/// readers.
#[derive(Clone, Copy, Debug)]
pub(crate) enum Half {
    Publishing,
    Subscribing,
}

impl Half {
    ghost use Rattle.pubsub_states.specs.Halves.{head_of, member_of};

    pub(crate) fn head(self, group: u8) -> Component
        ensures { result ≡ head_of self group }
    {
        match self {
            Half::Publishing => Component::Group { group },
            Half::Subscribing => Component::ReadGroup { read_group: group },
        }
    }

    pub(crate) fn member(self, group: u8, index: u8) -> Component
        ensures { result ≡ member_of self group index }
    {
        match self {
            Half::Publishing => Component::Writer {
                group,
                writer: index,
            },
            Half::Subscribing => Component::Reader {
                read_group: group,
                reader: index,
            },
        }
    }
}
