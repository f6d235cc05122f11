//! What a command writes on the output.
ghost use Rattle.ua_base.specs.Cause.{HasCause};
ghost use Rattle.cmd_base.specs.Statuses.{IsUnwritten};
ghost use Rattle.cmd_base.specs.Outputs.{EndsWriting};

use crate::status::Status;
use ua_base::{Sink, WriteEnd};

/// Writes the report or the answer of a command that has done all else.
pub fn write_text<'w, K: Sink>(out: &mut K, text: &[u8]) -> Status<'w>
    ensures written { EndsWriting (K.written out.old) (K.written out.new) text.now result }
    ensures cause { HasCause (K.faults out.old) (K.faults out.new) (IsUnwritten result) }
{
    match out.write(text) {
        WriteEnd::Done => Status::Done,
        WriteEnd::Failed => Status::Unwritten,
    }
}
