//! The components of a configuration.
ghost use Rattle.std.specs.Prelude.{◌≡◌, ◌<◌, Some, length, slice_get};

use ps_config::{Config, Parts};

/// A component by its place in the configuration (OPC 10000-14 6.2: PublishSubscribe, PubSubConnection,
/// WriterGroup, DataSetWriter, ReaderGroup, DataSetReader). Groups and read groups count from 0, and
/// writers and readers from 0 in theirs.
#[derive(Clone, Copy, Debug, PartialEq, Eq)]
pub enum Component {
    Root,
    Connection,
    Group { group: u8 },
    Writer { group: u8, writer: u8 },
    ReadGroup { read_group: u8 },
    Reader { read_group: u8, reader: u8 },
}

impl Component {
    ghost use Rattle.pubsub_states.specs.Components.{counts_of, IsAmong, is_at_or_above, is_reader};
    ghost use Rattle.pubsub_states.specs.Names.{name_of};

    /// Whether it is the other one, or stands above it.
    pub fn is_at_or_above(self, lower: Component) -> bool
        ensures { result ≡ is_at_or_above self lower }
    {
        match self {
            Component::Root => true,
            Component::Connection => !matches!(lower, Component::Root),
            Component::Group { group } => match lower {
                Component::Group { group: other } | Component::Writer { group: other, .. } => {
                    group == other
                }
                _ => false,
            },
            Component::ReadGroup { read_group } => match lower {
                Component::ReadGroup { read_group: other }
                | Component::Reader {
                    read_group: other,
                    ..
                } => read_group == other,
                _ => false,
            },
            Component::Writer { .. } | Component::Reader { .. } => self == lower,
        }
    }

    pub fn is_reader(self) -> bool
        ensures { result ≡ is_reader self }
    {
        matches!(self, Component::Reader { .. })
    }

    /// The name by which scripts name it.
    pub fn name(self, config: &Config) -> &[u8]
        requires { IsAmong (counts_of config.now) self }
        ensures { result.now ≡ name_of config.now self }
    {
        match self {
            Component::Root => b"root",
            Component::Connection => b"connection",
            Component::Group { group } => part(&config.group, group).name.as_bytes(),
            Component::Writer { group, writer } => {
                part(&part(&config.group, group).writer, writer)
                    .name
                    .as_bytes()
            }
            Component::ReadGroup { read_group } => {
                part(&config.readgroup, read_group).name.as_bytes()
            }
            Component::Reader { read_group, reader } => {
                part(&part(&config.readgroup, read_group).reader, reader)
                    .name
                    .as_bytes()
            }
        }
    }
}

fn part<T>(parts: &Parts<T>, index: u8) -> &T
    requires { index < length parts.now }
    ensures { slice_get parts.now index ≡ Some result.now }
{
    &parts.as_slice()[usize::from(index)]
}
