//! What a read group answers to a datagram.
ghost use Rattle.std.specs.Prelude.{◌≡◌};
ghost use Rattle.reader_group.specs.declared.refusal.Refusal.TheVariants as refusals;

use message_guard::OpenFault;
use payload_layout::BadSizes;
use std::error::Error;
use std::fmt;
use uadp_header::HeaderFault;

/// What became of the parts of a datagram that was taken. A part is a DataSetMessage, a chunk of one, or the slot of an enabled
/// reader.
#[derive(Clone, Copy, Debug, PartialEq, Eq)]
pub struct Taken {
    /// How many there were.
    pub parts: u32,
    /// How often one was given to an enabled reader.
    pub matched: u32,
    /// How many of these couldn't be read.
    pub bad: u32,
}

/// Why a datagram isn't taken. The first of these that holds is given, in the order `Header`, `NotOurs`, `Guard`, `NoIds`,
/// `BadSizes`.
#[derive(Clone, Copy, Debug, PartialEq, Eq)]
pub enum Refusal {
    /// It has no header.
    Header(HeaderFault),
    /// Its publisher, its group, the group's version or its class id isn't the one that the read group asks for, or its
    /// NetworkMessageNumber isn't the one that `ReaderGroup::datagram_of_number` asks for.
    NotOurs,
    /// It has no payload header, in a dynamic layout.
    NoIds,
    /// It isn't secured as the read group asks for.
    Guard(OpenFault),
    /// The sizes of its messages, or the messages that they tell of, pass its end, in a dynamic layout.
    BadSizes,
}

impl fmt::Display for Refusal {
    ghost use Rattle.std.specs.Prelude.{Some};
    ghost use Rattle.reader_group.specs.FaultTexts.{refusal};

    ghost output = { λ r. Some (refusal r) };

    fn fmt<W: fmt::Write>(&self, f: &mut fmt::Formatter<W>) -> fmt::Result {
        match self {
            Refusal::Header(fault) => write!(f, "no header was read: {fault}"),
            Refusal::NotOurs => f.write_str(
                "the publisher, the group, its version, the class id or the NetworkMessageNumber isn't the one that the read group asks for",
            ),
            Refusal::NoIds => {
                f.write_str("there is no payload header, which a dynamic layout wants")
            }
            Refusal::Guard(fault) => write!(f, "{fault}"),
            Refusal::BadSizes => f.write_str(
                "the sizes of the messages, or the messages, pass the end of the datagram",
            ),
        }
    }
}

impl Error for Refusal {}

impl From<HeaderFault> for Refusal {
    ghost from_gives = { λ fault refusal. refusal ≡ refusals.Header fault };

    fn from(fault: HeaderFault) -> Refusal {
        Refusal::Header(fault)
    }
}

impl From<OpenFault> for Refusal {
    ghost from_gives = { λ fault refusal. refusal ≡ refusals.Guard fault };

    fn from(fault: OpenFault) -> Refusal {
        Refusal::Guard(fault)
    }
}

impl From<BadSizes> for Refusal {
    ghost from_gives = { λ _ refusal. refusal ≡ refusals.BadSizes };

    fn from(_sizes: BadSizes) -> Refusal {
        Refusal::BadSizes
    }
}
