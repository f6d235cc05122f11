//! What a script is refused for.
ghost use Rattle.std.specs.Prelude.{◌≡◌, Some};
ghost use Rattle.ps_script.specs.FaultNumbers.{number_of, fault_name};

use std::error::Error;
use std::fmt::{self, Display, Formatter, Write};

/// What a line of a script is refused for. The fault that stands first here is reported.
#[derive(Clone, Copy, Debug, PartialEq, Eq)]
pub enum ScriptFault {
    /// A byte that isn't a space or a printable character of ASCII, in a comment too.
    BadText,
    /// More than 1,024 bytes.
    LongLine,
    /// The first word, or the third of a fate, is none that there is.
    UnknownWord,
    /// A wrong number of words, or a field word without `=`.
    BadShape,
    /// A number that isn't one, or out of its range.
    BadNumber,
    /// A data set, a reader or a component that isn't there.
    UnknownName,
    /// A field that the data set doesn't have by then, or one twice.
    BadField,
    /// A text that is no value of its field, or no status of its data set; a kind that is none.
    BadValue,
    /// A component is enabled that is, or disabled that isn't.
    BadState,
    /// One line of its kind more than are allowed.
    TooMany,
    /// A second fate of a datagram, one until no later datagram, or any where links have none.
    BadFate,
    /// A field that the data set can't have, or of which its writers can't tell.
    BadAppend,
}

impl ScriptFault {
    /// The number under which the fault is reported.
    pub fn number(self) -> u8
        ensures { result ≡ number_of self }
    {
        match self {
            ScriptFault::BadText => 1,
            ScriptFault::LongLine => 2,
            ScriptFault::UnknownWord => 3,
            ScriptFault::BadShape => 4,
            ScriptFault::BadNumber => 5,
            ScriptFault::UnknownName => 6,
            ScriptFault::BadField => 7,
            ScriptFault::BadValue => 8,
            ScriptFault::BadState => 9,
            ScriptFault::TooMany => 10,
            ScriptFault::BadFate => 11,
            ScriptFault::BadAppend => 12,
        }
    }

    /// The name under which the fault is reported.
    pub fn name(self) -> &'static str
        ensures { result.now ≡ fault_name self }
    {
        match self {
            ScriptFault::BadText => "BadText",
            ScriptFault::LongLine => "LongLine",
            ScriptFault::UnknownWord => "UnknownWord",
            ScriptFault::BadShape => "BadShape",
            ScriptFault::BadNumber => "BadNumber",
            ScriptFault::UnknownName => "UnknownName",
            ScriptFault::BadField => "BadField",
            ScriptFault::BadValue => "BadValue",
            ScriptFault::BadState => "BadState",
            ScriptFault::TooMany => "TooMany",
            ScriptFault::BadFate => "BadFate",
            ScriptFault::BadAppend => "BadAppend",
        }
    }
}

impl Display for ScriptFault {
    ghost output = { λ fault. Some (fault_name fault) };

    fn fmt<W: Write>(&self, f: &mut Formatter<W>) -> fmt::Result {
        f.write_str(self.name())
    }
}

impl Error for ScriptFault {}
