//! How a command ends that has no text.
ghost use Rattle.std.specs.Prelude.{◌≡◌};
ghost use Rattle.cmd_base.specs.Endings.{status_of};

use crate::Status;
use script_player::PlayEnd;

/// The status that says why a session has no report.
pub fn status_of<'w>(end: PlayEnd) -> Status<'w>
    ensures { result ≡ status_of end }
{
    match end {
        PlayEnd::Memory => Status::OutOfMemory,
        PlayEnd::Unopened => Status::Unopened,
    }
}
