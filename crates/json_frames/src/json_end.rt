//! Why no message is read.
ghost use Rattle.std.specs.Prelude.{Some};
ghost use Rattle.json_frames.specs.FaultTexts.{json_end};

use std::alloc::{AllocError, AllocFailed};
use std::error::Error;
use std::fmt;

/// Why bytes are read as no message. The one that stands first here is told.
#[derive(Clone, Copy, Debug, PartialEq, Eq)]
pub enum JsonEnd {
    /// The bytes are no JSON in UTF-8 of at most 127 levels.
    NotJson,
    /// No object, or one whose `MessageType` isn't `ua-data`.
    NotData,
    /// `PublisherId` isn't a text of at most 256 bytes.
    BadPublisher,
    /// `Messages` isn't an array.
    NoMessages,
    /// Memory ran out.
    Memory,
}

impl fmt::Display for JsonEnd {
    ghost output = { λ end. Some (json_end end) };

    fn fmt<W: fmt::Write>(&self, f: &mut fmt::Formatter<W>) -> fmt::Result {
        match *self {
            JsonEnd::NotJson => f.write_str("the bytes are no JSON that can be read"),
            JsonEnd::NotData => f.write_str("the MessageType isn't ua-data"),
            JsonEnd::BadPublisher => {
                f.write_str("the PublisherId isn't a text of at most 256 bytes")
            }
            JsonEnd::NoMessages => f.write_str("there is no array Messages"),
            JsonEnd::Memory => f.write_str("out of memory"),
        }
    }
}

impl Error for JsonEnd {}

impl From<AllocError> for JsonEnd {
    ghost use Rattle.std.specs.Prelude.{◌≡◌};
    ghost use Rattle.json_frames.specs.declared.json_end.JsonEnd.TheVariants.{Memory};

    ghost from_gives = { λ _ end. end ≡ Memory };

    fn from(_: AllocError) -> JsonEnd {
        JsonEnd::Memory
    }
}

impl<T: Drop> From<AllocFailed<T>> for JsonEnd {
    ghost use Rattle.std.specs.Prelude.{◌≡◌};
    ghost use Rattle.json_frames.specs.declared.json_end.JsonEnd.TheVariants.{Memory};

    ghost from_gives = { λ _ end. end ≡ Memory };

    fn from(_: AllocFailed<T>) -> JsonEnd {
        JsonEnd::Memory
    }
}
