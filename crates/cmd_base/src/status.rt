//! How a command ends.
ghost use Rattle.std.specs.Prelude.{◌≡◌};

use ps_config::Path;
use ps_script::ScriptFault;

/// How a command ends.
#[derive(Drop)]
pub enum Status<'w> {
    /// The report or the answer was written whole.
    Done,
    /// The words have no shape that the program knows.
    BadWords,
    /// The configuration was read whole, and this fault of it stands here.
    ConfigRefused { code: u8, path: Path },
    /// The configuration was accepted, and no reader of the first session can be the source of this data set of it, counted from 0.
    NoSource { set: u32 },
    /// The script was read whole, and this line, counted from 1, is the first that has a fault.
    ScriptRefused { line: u32, fault: ScriptFault },
    /// The script was accepted, and this line, counted from 1, is the first that lanes don't take.
    NotInLanes { line: u32 },
    /// The file could not be read.
    Unread { file: &'w str },
    /// The report or the answer could not be written.
    Unwritten,
    /// Memory ran out.
    OutOfMemory,
    /// The link could not be opened.
    Unopened,
    /// The file has more than 1,048,576 bytes.
    Long { file: &'w str },
}

impl<'w> Status<'w> {
    ghost use Rattle.cmd_base.specs.Statuses.{number_of};

    /// The exit status of the process.
    pub fn number(&self) -> u8
        ensures { result ≡ number_of self.now }
    {
        match self {
            Status::Done => 0,
            Status::BadWords => 2,
            Status::ConfigRefused { .. } | Status::NoSource { .. } => 3,
            Status::ScriptRefused { .. } | Status::NotInLanes { .. } => 4,
            Status::Unread { .. } => 5,
            Status::Unwritten => 6,
            Status::OutOfMemory => 7,
            Status::Unopened => 8,
            Status::Long { .. } => 9,
        }
    }
}
