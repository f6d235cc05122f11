//! Files that commands read whole.
ghost use Rattle.std.specs.Prelude.{IfOk, IfErr};
ghost use Rattle.ua_base.specs.Cause.{Rose};
ghost use Rattle.cmd_base.specs.Outside.{KeepsFolder};
ghost use Rattle.cmd_base.specs.Statuses.{IsUnread};
ghost use Rattle.cmd_base.specs.Files.{IsRead, EndsFile};

use crate::status::Status;
use std::alloc::Global;
use ua_base::{Folder, ReadEnd};

/// A file may have so many bytes.
const MAX_FILE: u64 = 1_048_576;

/// The bytes of the file of this name.
pub fn read_file<'w, F: Folder>(
    alloc: Global,
    name: &'w str,
    folder: &mut F,
) -> Result<Vec<u8>, Status<'w>>
    ensures bytes { IfOk result (λ bytes. IsRead (F.tells folder.old name.now) bytes.items) }
    ensures ends { IfErr result (EndsFile (F.tells folder.old name.now) name.now) }
    ensures unread { IfErr result (λ status. IsUnread status
        → Rose (F.faults folder.old) (F.faults folder.new)) }
    ensures folder { KeepsFolder F.tells F.faults folder.old folder.new }
{
    let mut bytes = Vec::new(alloc);
    match folder.read_whole(name, MAX_FILE, &mut bytes) {
        ReadEnd::Done => Ok(bytes),
        ReadEnd::Failed => Err(Status::Unread { file: name }),
        ReadEnd::Long { .. } => Err(Status::Long { file: name }),
        ReadEnd::Memory => Err(Status::OutOfMemory),
    }
}
