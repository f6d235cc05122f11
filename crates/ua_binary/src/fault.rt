//! Why bytes are no value.
ghost use Rattle.std.specs.Prelude.{◌≡◌};
ghost use Rattle.ua_binary.specs.declared.fault.ValueFault.TheVariants as faults;

use crate::cursor::Short;
use std::error::Error;
use std::fmt;

/// The first fault from left to right.
#[derive(Clone, Copy, Debug, PartialEq, Eq)]
pub enum ValueFault {
    /// The bytes end before the value does.
    Short,
    /// A type byte of no kind, among them those of arrays and of null, or a DataValue's mask with a reserved bit
    /// (OPC 10000-6 sections 5.2.2.16 and 5.2.2.17).
    KindOut,
    /// A String that isn't UTF-8 (OPC 10000-6 section 5.2.2.4).
    BadUtf8,
    /// The length of a String or a ByteString (OPC 10000-6 sections 5.2.2.4 and 5.2.2.7) is below -1 or over 256. It is
    /// judged before the bytes that it counts.
    BadLength,
}

impl fmt::Display for ValueFault {
    ghost use Rattle.std.specs.Prelude.{Some};
    ghost use Rattle.ua_binary.specs.FaultTexts.{value_fault};

    ghost output = { λ fault. Some (value_fault fault) };

    fn fmt<W: fmt::Write>(&self, f: &mut fmt::Formatter<W>) -> fmt::Result {
        f.write_str(match self {
            ValueFault::Short => "the bytes end before the value does: give the rest too",
            ValueFault::KindOut =>
                "the type byte is of no kind that a field can have: arrays, structures and null are out",
            ValueFault::BadUtf8 => "a String isn't UTF-8",
            ValueFault::BadLength =>
                "the length of a String or a ByteString is below -1 or over 256",
        })
    }
}

impl Error for ValueFault {}

impl From<Short> for ValueFault {
    ghost from_gives = { λ _ fault. fault ≡ faults.Short };

    fn from(_short: Short) -> ValueFault {
        ValueFault::Short
    }
}
