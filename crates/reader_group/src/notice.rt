//! What became of the parts that a reader was given, and what a read group notes of it.
ghost use Rattle.std.specs.Prelude.{◌≡◌};

use crate::account::Account;
use crate::findings::more_of;
use chunker::ChunkFault;
use dataset_reader::Took;
use frame_codec::{FieldFault, FrameFault};
use std::error::Error;
use std::fmt;

/// Why a part for a reader couldn't be read.
#[derive(Clone, Copy, Debug, PartialEq, Eq)]
pub enum PartFault {
    /// The message, or what stands in the reader's slot.
    Frame(FrameFault),
    /// A chunk of a message.
    Chunk(ChunkFault),
    /// The chunk's message has `total` bytes, more than are joined.
    TooLong { total: u32 },
    /// The chunk has no bytes, or they begin at byte `offset` of a message of `total` bytes, and go past its end.
    BadRange { offset: u32, total: u32 },
    /// The chunks of the message that came before told of `first` bytes in all, and this one tells of `now`.
    Differs { first: u32, now: u32 },
    /// The datagram ends before the reader's slot does.
    Missing,
}

impl fmt::Display for PartFault {
    ghost use Rattle.std.specs.Prelude.{Some};
    ghost use Rattle.reader_group.specs.FaultTexts.{part_fault};

    ghost output = { λ fault. Some (part_fault fault) };

    fn fmt<W: fmt::Write>(&self, f: &mut fmt::Formatter<W>) -> fmt::Result {
        match *self {
            PartFault::Frame(fault) => write!(f, "{fault}"),
            PartFault::Chunk(fault) => write!(f, "{fault}"),
            PartFault::TooLong { total } => write!(
                f,
                "the chunk's message has {total} bytes, more than the 4096 that are joined"
            ),
            PartFault::BadRange { offset, total } => write!(
                f,
                "the chunk has no bytes, or from byte {offset} on they pass the {total} of its message"
            ),
            PartFault::Differs { first, now } => write!(
                f,
                "the chunk's message has {now} bytes, and {first} by the chunks before"
            ),
            PartFault::Missing => f.write_str("the datagram ends before the reader's slot does"),
        }
    }
}

impl Error for PartFault {}

/// What became of a part.
#[derive(Clone, Copy)]
pub(crate) enum PartOutcome {
    /// It is a chunk that makes no message whole.
    Laid,
    /// It is a message, or makes one whole, and the reader answered this.
    Given(Took),
    /// It couldn't be read: for this fault, at this field where a value has it.
    Bad {
        fault: PartFault,
        field: Option<FieldFault>,
    },
}

/// What a read group notes of a reader's parts, over all datagrams since the group was made. Each count stands at 2^64 - 1.
#[derive(Clone, Copy, Debug, Default, PartialEq, Eq)]
pub struct Notice {
    /// Why the last part that couldn't be read couldn't.
    pub fault: Option<PartFault>,
    /// The field whose value has that fault, with its type byte. None where no value has it, and where the values are RawData.
    pub field: Option<FieldFault>,
    /// How many parts couldn't be read.
    pub bad: u64,
    /// The major version of the last message that was passed over for being of another one than the data set.
    pub major: Option<u32>,
    /// How many messages were missing by their numbers, as the reader found at each break in their run: those from the number that
    /// was due to the one before what came. A late message stays counted, and is passed over as older. A cut counts none.
    pub lost: u64,
    /// How often a row was stored: by a key frame, or by a delta frame that follows the row.
    pub stored: u64,
    /// The moment, in milliseconds, of the last message that the reader took. One that is passed over isn't taken.
    pub seen: Option<u64>,
}

impl Notice {
    ghost use Rattle.reader_group.specs.Notices.{noted_by};

    /// Notes what became of the parts of a datagram that came at this moment.
    pub(crate) fn note(&mut self, now: u64, account: &Account)
        ensures { self.new ≡ noted_by now account.now self.old }
    {
        let findings = account.findings;
        if findings.fault.is_some() {
            self.fault = findings.fault;
            self.field = findings.field;
        }
        if findings.major.is_some() {
            self.major = findings.major;
        }
        if findings.taken {
            self.seen = Some(now);
        }
        self.bad = more_of(self.bad, u64::from(account.tally.bad));
        self.lost = more_of(self.lost, findings.lost);
        self.stored = more_of(self.stored, findings.stored);
    }
}
