//! Why bytes begin with no header.
ghost use Rattle.std.specs.Prelude.{◌≡◌};
ghost use Rattle.uadp_header.specs.declared.fault.HeaderFault.TheVariants as faults;

use std::error::Error;
use std::fmt;
use ua_binary::Short;

/// The fault of the first part, from left to right, that fails (OPC 10000-14 7.2.4.4).
#[derive(Clone, Copy, Debug, PartialEq, Eq)]
pub enum HeaderFault {
    /// The bytes end before the header does.
    Short,
    /// A version other than 1, judged at the flags byte.
    Version { got: u8 },
    /// ExtendedFlags2 tells of a discovery message: a probe or an announcement.
    DiscoveryOut,
    /// ExtendedFlags1 has a PublisherId type that the standard reserves, even where the id isn't there.
    BadPublisherType,
    /// A message type or a flag that the standard reserves, or a chunk without payload header.
    ReservedBits,
    /// A PublisherId that is a String whose length is below -1, or which isn't UTF-8.
    BadId,
}

impl fmt::Display for HeaderFault {
    ghost use Rattle.std.specs.Prelude.{Some};
    ghost use Rattle.uadp_header.specs.FaultTexts.{header_fault};

    ghost output = { λ fault. Some (header_fault fault) };

    fn fmt<W: fmt::Write>(&self, f: &mut fmt::Formatter<W>) -> fmt::Result {
        match *self {
            HeaderFault::Short => f.write_str("the bytes end before the header does"),
            HeaderFault::Version { got } => {
                write!(f, "the message has UADP version {got}, and only 1 is read")
            }
            HeaderFault::DiscoveryOut => f.write_str(
                "the message is a discovery message: send data messages here",
            ),
            HeaderFault::BadPublisherType => f.write_str(
                "the PublisherId has a type that the standard reserves",
            ),
            HeaderFault::ReservedBits => f.write_str(
                "the header has a message type or a flag that the standard reserves, or is a chunk without payload header",
            ),
            HeaderFault::BadId => f.write_str(
                "the PublisherId is a String with a length below -1, or isn't UTF-8",
            ),
        }
    }
}

impl Error for HeaderFault {}

impl From<Short> for HeaderFault {
    ghost from_gives = { λ _ fault. fault ≡ faults.Short };

    fn from(_short: Short) -> HeaderFault {
        HeaderFault::Short
    }
}
