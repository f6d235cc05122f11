//! Why bytes are no frame.
ghost use Rattle.std.specs.Prelude.{◌≡◌};
ghost use Rattle.frame_codec.specs.declared.fault.FrameFault.TheVariants as faults;
ghost use Rattle.frame_codec.specs.Contents.{fault_of};

use std::error::Error;
use std::fmt;
use ua_binary::{Short, ValueFault};

/// The first fault from left to right. Of one byte of flags NotValid is judged first, then BadEncoding, then EventOut, and
/// ReservedBits last (OPC 10000-14 7.2.4.5, UADP DataSetMessage).
#[derive(Clone, Copy, Debug, PartialEq, Eq)]
pub enum FrameFault {
    /// The bytes end before the frame does.
    Short,
    /// Field encoding 3, or RawData outside a fixed layout or in a delta frame. It is judged before the kind of message and the
    /// reserved flags.
    BadEncoding,
    /// A value's type byte is of no kind, or a DataValue's mask has a reserved bit.
    KindOut,
    /// A value that doesn't fit its field, a text that isn't UTF-8, a bad length, or a DataValue without a value.
    BadValue,
    /// A delta frame's index is no field's, and the frame carries no minor version greater than the meta's. With a greater one
    /// the value is read and dropped.
    BadIndex { got: u16 },
    /// A key frame's count is less than the number of fields, or it is greater, and the frame carries no minor version greater
    /// than the meta's. With a greater one the surplus values are read and dropped.
    WrongCount { got: u16 },
    /// A byte after the end isn't 0.
    Trailing,
    /// The message says that it isn't valid. It is judged first.
    NotValid,
    /// An event. It is judged before the reserved flags.
    EventOut,
    /// A kind of message that the standard reserves, or a reserved flag of DataSetFlags2. It is judged last of the flags.
    ReservedBits,
}

impl fmt::Display for FrameFault {
    ghost use Rattle.std.specs.Prelude.{Some};
    ghost use Rattle.frame_codec.specs.FaultTexts.{frame_fault};

    ghost output = { λ fault. Some (frame_fault fault) };

    fn fmt<W: fmt::Write>(&self, f: &mut fmt::Formatter<W>) -> fmt::Result {
        match *self {
            FrameFault::Short => f.write_str("the bytes end before the message does"),
            FrameFault::BadEncoding => f.write_str(
                "the field encoding is 3, or RawData outside a fixed layout or in a delta frame",
            ),
            FrameFault::KindOut => f.write_str(
                "a value's type byte is of no kind that a field can have",
            ),
            FrameFault::BadValue => f.write_str("a value doesn't fit its field"),
            FrameFault::BadIndex { got } => {
                write!(
                    f,
                    "no field has the delta frame's index {got}: compare the configuration versions"
                )
            }
            FrameFault::WrongCount { got } => {
                write!(
                    f,
                    "the key frame has {got} fields, another number than the data set: compare the configuration versions"
                )
            }
            FrameFault::Trailing => f.write_str("a byte behind the message isn't 0"),
            FrameFault::NotValid => f.write_str("the message says that it isn't valid"),
            FrameFault::EventOut => f.write_str(
                "the message is an event, and data sets of events are out",
            ),
            FrameFault::ReservedBits => f.write_str(
                "the message has a kind or a flag that the standard reserves",
            ),
        }
    }
}

impl Error for FrameFault {}

impl From<Short> for FrameFault {
    ghost from_gives = { λ _ fault. fault ≡ faults.Short };

    fn from(_short: Short) -> FrameFault {
        FrameFault::Short
    }
}

impl From<ValueFault> for FrameFault {
    ghost from_gives = { λ value fault. fault ≡ fault_of value };

    fn from(value: ValueFault) -> FrameFault {
        match value {
            ValueFault::Short => FrameFault::Short,
            ValueFault::KindOut => FrameFault::KindOut,
            ValueFault::BadUtf8 | ValueFault::BadLength => FrameFault::BadValue,
        }
    }
}
