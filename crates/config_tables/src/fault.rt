//! What a configuration is refused for.
ghost use Rattle.std.specs.Prelude.{◌≡◌, ◌==◌, find, Some};
ghost use Rattle.config_tables.specs.FaultNumbers.{number_of, fault_name, is_same, all_faults};

use std::error::Error;
use std::fmt::{self, Display, Formatter, Write};

/// What a configuration is refused for. The fault that stands first here is told, by its name.
#[derive(Clone, Copy, Debug, PartialEq, Eq)]
pub enum Fault {
    /// The bytes are no TOML document.
    BadToml,
    /// A key that the table doesn't have.
    UnknownKey,
    /// A key that has to be there, or the table `publisher`, isn't.
    MissingKey,
    /// A key has a value of another type.
    WrongType,
    /// One element more than are allowed.
    TooMany,
    /// A name that isn't one.
    BadName,
    /// An earlier one has the name.
    DoubleName,
    /// A publisher that isn't spelled as one.
    BadPublisher,
    /// A number out of its range.
    BadNumber,
    /// A word that isn't one of its choices.
    BadChoice,
    /// A class id that isn't spelled as one.
    BadUuid,
    /// Not the wanted number of hexadecimal digits.
    BadHex,
    /// A text or a byte string without a cap, or another field with one.
    BadField,
    /// A data set without fields.
    NoFields,
    /// A data set whose rows take too many words.
    TooWide,
    /// A key group without keys, or whose keys aren't in order.
    KeyOrder,
    /// A data set or a key group that isn't there.
    UnknownRef,
    /// An earlier one has the id.
    DoubleId,
    /// Security without a key group, or a key group without security.
    KeyNeeded,
    /// A keep-alive time below the group's interval.
    KeepAliveShort,
    /// Keys that a writer of a fixed group can't have.
    FixedOnlyKeys,
    /// A slot overlaps an earlier one, or the header.
    SlotClash,
    /// A slot is smaller than its message.
    SlotSmall,
    /// A slot goes past the datagram's end.
    SlotPast,
    /// A message has no room, or too many datagrams may be needed.
    FrameLarge,
}

// All faults, in the order of their numbers.
const FAULTS: [Fault; 25] = [
    Fault::BadToml,
    Fault::UnknownKey,
    Fault::MissingKey,
    Fault::WrongType,
    Fault::TooMany,
    Fault::BadName,
    Fault::DoubleName,
    Fault::BadPublisher,
    Fault::BadNumber,
    Fault::BadChoice,
    Fault::BadUuid,
    Fault::BadHex,
    Fault::BadField,
    Fault::NoFields,
    Fault::TooWide,
    Fault::KeyOrder,
    Fault::UnknownRef,
    Fault::DoubleId,
    Fault::KeyNeeded,
    Fault::KeepAliveShort,
    Fault::FixedOnlyKeys,
    Fault::SlotClash,
    Fault::SlotSmall,
    Fault::SlotPast,
    Fault::FrameLarge,
];

impl Fault {
    /// The number under which the fault is told.
    pub fn number(self) -> u8
        ensures { result ≡ number_of self }
    {
        match self {
            Fault::BadToml => 1,
            Fault::UnknownKey => 2,
            Fault::MissingKey => 3,
            Fault::WrongType => 4,
            Fault::TooMany => 5,
            Fault::BadName => 6,
            Fault::DoubleName => 7,
            Fault::BadPublisher => 8,
            Fault::BadNumber => 9,
            Fault::BadChoice => 10,
            Fault::BadUuid => 11,
            Fault::BadHex => 12,
            Fault::BadField => 13,
            Fault::NoFields => 14,
            Fault::TooWide => 15,
            Fault::KeyOrder => 16,
            Fault::UnknownRef => 17,
            Fault::DoubleId => 18,
            Fault::KeyNeeded => 19,
            Fault::KeepAliveShort => 20,
            Fault::FixedOnlyKeys => 21,
            Fault::SlotClash => 22,
            Fault::SlotSmall => 23,
            Fault::SlotPast => 24,
            Fault::FrameLarge => 25,
        }
    }

    /// All faults, in the order of their numbers.
    pub fn all() -> &'static [Fault]
        ensures { result.now ≡ all_faults }
    {
        &FAULTS
    }

    /// The fault that has a number.
    pub fn numbered(number: u8) -> Option<Fault>
        ensures { result ≡ find (λ fault. number_of fault == number) all_faults }
    {
        FAULTS
            .iter()
            .copied()
            .find(|fault| fault.number() == number)
    }

    /// The name under which the fault is told.
    pub fn name(self) -> &'static str
        ensures { result.now ≡ fault_name self }
    {
        match self {
            Fault::BadToml => "BadToml",
            Fault::UnknownKey => "UnknownKey",
            Fault::MissingKey => "MissingKey",
            Fault::WrongType => "WrongType",
            Fault::TooMany => "TooMany",
            Fault::BadName => "BadName",
            Fault::DoubleName => "DoubleName",
            Fault::BadPublisher => "BadPublisher",
            Fault::BadNumber => "BadNumber",
            Fault::BadChoice => "BadChoice",
            Fault::BadUuid => "BadUuid",
            Fault::BadHex => "BadHex",
            Fault::BadField => "BadField",
            Fault::NoFields => "NoFields",
            Fault::TooWide => "TooWide",
            Fault::KeyOrder => "KeyOrder",
            Fault::UnknownRef => "UnknownRef",
            Fault::DoubleId => "DoubleId",
            Fault::KeyNeeded => "KeyNeeded",
            Fault::KeepAliveShort => "KeepAliveShort",
            Fault::FixedOnlyKeys => "FixedOnlyKeys",
            Fault::SlotClash => "SlotClash",
            Fault::SlotSmall => "SlotSmall",
            Fault::SlotPast => "SlotPast",
            Fault::FrameLarge => "FrameLarge",
        }
    }

    pub fn is(self, other: Fault) -> bool
        ensures { result ≡ is_same self other }
    {
        self.number() == other.number()
    }
}

impl Display for Fault {
    ghost output = { λ fault. Some (fault_name fault) };

    fn fmt<W: Write>(&self, f: &mut Formatter<W>) -> fmt::Result {
        f.write_str(self.name())
    }
}

impl Error for Fault {}
