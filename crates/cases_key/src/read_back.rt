//! Keys that are written and read back.
ghost use Rattle.std.specs.Prelude.{◌≡◌, ◌≤◌, IfSome, length, take};
ghost use Rattle.group_keys.specs.Ring.{key_sets};
ghost use Rattle.key_service.specs.Laws.{IsReply};
ghost use Rattle.key_service.specs.Pulled.{IsPullable, pulled_sets};
ghost use Rattle.key_service.specs.Spelling.{reply_bytes};

use group_keys::Ring;
use key_service::{
    Keys, a_read_answer_is_pulled_as_the_answer, a_written_reply_is_read, pulled, read_reply,
    write_reply,
};
use ua_binary::Pen;

/// The ring that a puller makes of the keys, once they were written and read back.
pub fn pulled_back(keys: &Keys) -> Option<Ring>
    requires reply { IsReply keys.now }
    requires pullable { IsPullable keys.now }
    ensures { IfSome result (λ ring. key_sets ring ≡ pulled_sets keys.now) }
{
    a_written_reply_is_read();
    a_read_answer_is_pulled_as_the_answer();
    let mut room = [0; 2048];
    let Some(end) = written_reply(keys, &mut room) else {
        return None;
    };
    match read_reply(&room[..end]) {
        Ok(back) => Some(pulled(&back)),
        Err(_) => None,
    }
}

/// Writes a reply at the begin of a buffer, and gives its end.
fn written_reply(keys: &Keys, room: &mut [u8]) -> Option<usize>
    ensures reply { IfSome result (λ end. take end room.new ≡ reply_bytes keys.now) }
    ensures within { IfSome result (λ end. end ≤ length room.new) }
    ensures long { length room.new ≡ length room.old }
{
    let mut pen = Pen { bytes: room, at: 0 };
    match write_reply(&mut pen, keys) {
        Ok(()) => Some(pen.at),
        Err(_) => None,
    }
}
