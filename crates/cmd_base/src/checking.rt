//! Judging a configuration.
ghost use Rattle.std.specs.Prelude.{◌≡◌};
ghost use Rattle.cmd_base.specs.Outside.{outside_of};
ghost use Rattle.cmd_base.specs.Statuses.{IsDone, IsUnwritten};
ghost use Rattle.cmd_base.specs.Checks.{CheckEnds};

use crate::{Status, read_configuration, write_text};
use std::alloc::Global;
use ua_base::{Folder, Sink};

/// Judges the configuration in the file of this name, and writes `ok` where it is accepted. It is given nothing that could wait,
/// so it always returns.
pub fn check<'w, F: Folder, K: Sink>(
    alloc: Global,
    name: &'w str,
    folder: &mut F,
    out: &mut K,
) -> Status<'w>
    ensures ends { CheckEnds result name.now
        (outside_of F.tells F.faults K.written K.faults folder.old out.old)
        (outside_of F.tells F.faults K.written K.faults folder.new out.new) }
    ensures silent { ¬ IsDone result → ¬ IsUnwritten result → out.new ≡ out.old }
{
    match read_configuration(alloc, name, folder) {
        Ok(_) => {}
        Err(status) => return status,
    }
    write_text(out, b"ok\n")
}
