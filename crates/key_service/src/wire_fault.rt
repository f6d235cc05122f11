//! Why bytes are no request or reply.
ghost use Rattle.std.specs.Prelude.{◌≡◌, Some};
ghost use Rattle.key_service.specs.FaultTexts.{wire_fault};
ghost use Rattle.key_service.specs.declared.wire_fault.WireFault.TheVariants as faults;

use std::error::Error;
use std::fmt;
use ua_binary::Short;

/// Why bytes are no request or reply. The first fault from left to right is given; a moment is judged once the lifetime was read.
#[derive(Clone, Copy, Debug, PartialEq, Eq)]
pub enum WireFault {
    /// The bytes end before what is read does.
    Short,
    /// The name of a security group has a negative length, or is no name.
    BadName,
    /// The policy has a negative length, or is neither `PubSub-Aes128-CTR` nor `PubSub-Aes256-CTR`.
    BadPolicy,
    /// No key or more than 16, a key of another length, a token past 4294967295, or a moment past 2^64 - 1.
    BadKeys,
    /// Bytes follow the request or reply.
    Trailing,
}

impl From<Short> for WireFault {
    ghost from_gives = { λ _ fault. fault ≡ faults.Short };

    fn from(_short: Short) -> WireFault {
        WireFault::Short
    }
}

impl fmt::Display for WireFault {
    ghost output = { λ fault. Some (wire_fault fault) };

    fn fmt<W: fmt::Write>(&self, f: &mut fmt::Formatter<W>) -> fmt::Result {
        match *self {
            WireFault::Short => f.write_str("the bytes end too early"),
            WireFault::BadName => f.write_str("the name of the security group is no name"),
            WireFault::BadPolicy => f.write_str(
                "the security policy is none of PubSub-Aes128-CTR and PubSub-Aes256-CTR",
            ),
            WireFault::BadKeys => f.write_str(
                "the keys are none or more than 16, or a length, a token or a moment of theirs is out of range",
            ),
            WireFault::Trailing => f.write_str("bytes follow the end"),
        }
    }
}

impl Error for WireFault {}
