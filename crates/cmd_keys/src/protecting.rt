//! A datagram of four zero bytes, protected under a key.
ghost use Rattle.std.specs.Prelude.{◌≡◌, ◌+◌, ◌^◌, ◌<◌, ◌≤◌, length, take};
ghost use Rattle.group_keys.specs.Ring.{key_sets};
ghost use Rattle.message_guard.specs.declared.mode.Mode.TheVariants.{Encrypt};
ghost use Rattle.message_guard.specs.Senders.{advanced, front_value};
ghost use Rattle.cmd_keys.specs.Opening.{alone, HasLength, IsPlain, IsProtected};

use arrayvec::ArrayVec;
use group_keys::{KeySet, Ring};
use message_guard::{Mode, Sender};
use ua_binary::Pen;
use uadp_header::{Header, Ids, PublisherId, header_len, write_header};

pub(crate) const ZEROS: [u8; 4] = [0; 4];

/// Where the block counter begins, of the sender and the guard alike.
pub(crate) const FIRST_BLOCK: u32 = 1;

/// Writes the datagram at the begin of the room, and gives its end.
pub(crate) fn protect_zeros(long: bool, set: &KeySet, room: &mut [u8]) -> usize
    requires room { length room.old ≡ 64 }
    requires length { HasLength long set.now }
    ensures protected { IsProtected set.now (take result room.new) }
    ensures within { result ≤ length room.new }
{
    let mut sender = Sender::new(ring_of(long, set), [0; 4], FIRST_BLOCK, 0);
    let payload = write_plain(&mut sender, room);
    let end = payload + 36;
    sender.protect(Mode::Encrypt, &mut room[..end], payload);
    end
}

/// Writes the datagram before it is protected, with the next front of the sender, and gives where its payload begins.
fn write_plain(sender: &mut Sender, room: &mut [u8]) -> usize
    requires room { length room.old ≡ 64 }
    requires number { sender.old.used < 4294967295 }
    ensures sender { sender.new ≡ advanced Encrypt sender.old }
    ensures plain { IsPlain (front_value Encrypt sender.new) (take (result + 36) room.new) result }
    ensures within { result + 36 ≤ length room.new }
{
    let header = Header {
        publisher: Some(PublisherId::U8(1)),
        class_id: None,
        group: Some(1),
        version: None,
        message_number: None,
        sequence: None,
        ids: Ids::None,
        security: Some(sender.front(Mode::Encrypt)),
    };
    let payload = header_len(&header);
    let mut pen = Pen { bytes: room, at: 0 };
    match write_header(&mut pen, &header) {
        Ok(()) => {}
        Err(_) => unreachable!(),
    }
    pen.put_bytes(&ZEROS);
    pen.put_bytes(&[0; 32]);
    payload
}

/// A ring of this key alone.
fn ring_of(long: bool, set: &KeySet) -> Ring
    requires { HasLength long set.now }
    ensures sets { key_sets result ≡ alone set.now }
    ensures token { set.now.token < 2 ^ 32 }
{
    let mut encrypting = ArrayVec::new();
    let _ = encrypting.try_extend_from_slice(set.encrypting.as_slice());
    let mut sets = ArrayVec::new();
    sets.push(KeySet {
        token: set.token,
        from: 0,
        signing: set.signing,
        encrypting,
        nonce: set.nonce,
    });
    match Ring::new(long, sets) {
        Ok(ring) => ring,
        Err(_) => unreachable!(),
    }
}
