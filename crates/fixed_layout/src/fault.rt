//! Why bytes are no row of RawData.
ghost use Rattle.std.specs.Prelude.{◌≡◌};
ghost use Rattle.fixed_layout.specs.declared.fault.RawFault.TheVariants as faults;

use std::error::Error;
use std::fmt;
use ua_binary::Short;

/// The first fault from left to right.
#[derive(Clone, Copy, Debug, PartialEq, Eq)]
pub enum RawFault {
    /// The bytes end before the row does.
    Short,
    /// The length of a text or a blob is below -1 or over its field's cap. It is judged before the bytes that it counts.
    BadLength,
    /// A text that isn't UTF-8. It is judged before the bytes that fill it up to its cap.
    BadUtf8,
}

impl fmt::Display for RawFault {
    ghost use Rattle.std.specs.Prelude.{Some};
    ghost use Rattle.fixed_layout.specs.FaultTexts.{raw_fault};

    ghost output = { λ fault. Some (raw_fault fault) };

    fn fmt<W: fmt::Write>(&self, f: &mut fmt::Formatter<W>) -> fmt::Result {
        f.write_str(match self {
            RawFault::Short => "the bytes end before the row does",
            RawFault::BadLength =>
                "the length of a text or a ByteString is below -1 or over its field's cap",
            RawFault::BadUtf8 => "a text isn't UTF-8",
        })
    }
}

impl Error for RawFault {}

impl From<Short> for RawFault {
    ghost from_gives = { λ _ fault. fault ≡ faults.Short };

    fn from(_short: Short) -> RawFault {
        RawFault::Short
    }
}
