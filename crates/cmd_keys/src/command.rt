//! Asking for keys.
ghost use Rattle.std.specs.Prelude.{◌≡◌, IfOk, IfErr};
ghost use Rattle.ua_base.specs.Cause.{Rose};
ghost use Rattle.cmd_base.specs.Outside.{KeepsFolder, outside_of};
ghost use Rattle.cmd_base.specs.Statuses.{IsDone, IsUnread, IsUnwritten};
ghost use Rattle.cmd_base.specs.Configurations.{EndsConfigFile};
ghost use Rattle.cmd_keys.specs.Ends.{KeysEnds, TellsKeys};

use crate::text::answer_text;
use crate::words::Asked;
use cmd_base::{Status, read_configuration, write_text};
use std::alloc::Global;
use ua_base::{Folder, NoMemory, Sink};

/// Asks the key service of a security group for keys, the group being one of the configuration in the file of this name, and writes
/// what it answers. It is given nothing that could wait, so it always returns.
pub fn keys<'w, F: Folder, K: Sink>(
    alloc: Global,
    config: &'w str,
    asked: &Asked,
    folder: &mut F,
    out: &mut K,
) -> Status<'w>
    ensures ends { KeysEnds result config.now asked.now
        (outside_of F.tells F.faults K.written K.faults folder.old out.old)
        (outside_of F.tells F.faults K.written K.faults folder.new out.new) }
    ensures silent { ¬ IsDone result → ¬ IsUnwritten result → out.new ≡ out.old }
{
    let text = match text_of(alloc, config, asked, folder) {
        Ok(text) => text,
        Err(status) => return status,
    };
    write_text(out, &text)
}

/// What is written of the answer.
fn text_of<'w, F: Folder>(
    alloc: Global,
    config: &'w str,
    asked: &Asked,
    folder: &mut F,
) -> Result<Vec<u8>, Status<'w>>
    ensures text { IfOk result (λ text.
        TellsKeys (F.tells folder.old config.now) asked.now text.items) }
    ensures ends { IfErr result (EndsConfigFile (F.tells folder.old config.now) config.now) }
    ensures unread { IfErr result (λ status. IsUnread status
        → Rose (F.faults folder.old) (F.faults folder.new)) }
    ensures folder { KeepsFolder F.tells F.faults folder.old folder.new }
{
    let taken = match read_configuration(alloc, config, folder) {
        Ok(taken) => taken,
        Err(status) => return Err(status),
    };
    match answer_text(alloc, &taken, asked) {
        Ok(text) => Ok(text),
        Err(NoMemory) => Err(Status::OutOfMemory),
    }
}
