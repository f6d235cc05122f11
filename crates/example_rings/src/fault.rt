//! Why the session ends before its time.
use key_service::{KeyFault, WireFault};
use ps_config::ConfigEnd;
use reader_group::Refusal;
use std::alloc::AllocError;
use std::fmt::{self, Display, Formatter, Write};
use std::io;

/// Why the session ends before its time.
#[derive(Debug, Drop)]
pub enum Fault {
    /// There is no configuration.
    Config(ConfigEnd),
    /// The configuration isn't of this program's form.
    Unlike,
    /// The service answers no keys.
    NoKeys(KeyFault),
    /// A request or a reply can't be read.
    Unread(WireFault),
    /// The keys make no ring, or don't fit.
    NoRing,
    /// A turn made no datagram.
    NoDatagram,
    /// The reader holds no row.
    NoRow,
    /// A datagram is refused, and not as one of an old token.
    Refused(Refusal),
    /// The output can't be written.
    Unwritten,
    /// Memory ran out.
    Memory,
}

impl Display for Fault {
    fn fmt<W: Write>(&self, f: &mut Formatter<W>) -> fmt::Result {
        match self {
            Fault::Config(end) => write!(f, "{end}"),
            Fault::Unlike => f.write_str("the configuration isn't of this program's form"),
            Fault::NoKeys(fault) => write!(f, "{fault}"),
            Fault::Unread(fault) => write!(f, "{fault}"),
            Fault::NoRing => f.write_str("the keys make no ring"),
            Fault::NoDatagram => f.write_str("a turn made no datagram"),
            Fault::NoRow => f.write_str("the reader holds no row"),
            Fault::Refused(refusal) => write!(f, "a datagram is refused: {refusal}"),
            Fault::Unwritten => f.write_str("cannot write the output"),
            Fault::Memory => f.write_str("out of memory"),
        }
    }
}

impl From<ConfigEnd> for Fault {
    fn from(end: ConfigEnd) -> Fault {
        Fault::Config(end)
    }
}

impl From<KeyFault> for Fault {
    fn from(fault: KeyFault) -> Fault {
        Fault::NoKeys(fault)
    }
}

impl From<WireFault> for Fault {
    fn from(fault: WireFault) -> Fault {
        Fault::Unread(fault)
    }
}

impl From<io::Error> for Fault {
    fn from(_: io::Error) -> Fault {
        Fault::Unwritten
    }
}

impl From<AllocError> for Fault {
    fn from(_: AllocError) -> Fault {
        Fault::Memory
    }
}
