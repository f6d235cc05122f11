//! Why no row came over.
use ps_config::ConfigEnd;
use reader_group::Refusal;
use std::alloc::{AllocError, AllocFailed};
use std::error::Error;
use std::fmt::{self, Display, Formatter, Write};
use ua_base::NoMemory;

/// Why no row came over.
#[derive(Debug, Drop)]
pub enum DeviceFault {
    /// There is no configuration.
    Config(ConfigEnd),
    /// The configuration isn't of the form that this program publishes and reads.
    Unlike,
    /// The turn made no datagram.
    NoDatagram,
    /// The datagram wasn't taken.
    Refused(Refusal),
    /// The reader holds no row.
    NoRow,
    /// Memory ran out.
    Memory,
}

impl Display for DeviceFault {
    fn fmt<W: Write>(&self, f: &mut Formatter<W>) -> fmt::Result {
        match self {
            DeviceFault::Config(end) => write!(f, "{end}"),
            DeviceFault::Unlike => f.write_str("the configuration isn't of this program's form"),
            DeviceFault::NoDatagram => f.write_str("the turn made no datagram"),
            DeviceFault::Refused(refusal) => write!(f, "the datagram is refused: {refusal}"),
            DeviceFault::NoRow => f.write_str("the reader holds no row"),
            DeviceFault::Memory => f.write_str("out of memory"),
        }
    }
}

impl Error for DeviceFault {}

impl From<ConfigEnd> for DeviceFault {
    fn from(end: ConfigEnd) -> DeviceFault {
        DeviceFault::Config(end)
    }
}

impl From<Refusal> for DeviceFault {
    fn from(refusal: Refusal) -> DeviceFault {
        DeviceFault::Refused(refusal)
    }
}

impl From<NoMemory> for DeviceFault {
    fn from(_: NoMemory) -> DeviceFault {
        DeviceFault::Memory
    }
}

impl From<AllocError> for DeviceFault {
    fn from(_: AllocError) -> DeviceFault {
        DeviceFault::Memory
    }
}

impl<T: Drop> From<AllocFailed<T>> for DeviceFault {
    fn from(_: AllocFailed<T>) -> DeviceFault {
        DeviceFault::Memory
    }
}
