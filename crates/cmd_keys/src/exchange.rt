//! The bytes of requests and replies, and what is read of them.
ghost use Rattle.std.specs.Prelude.{◌≡◌, ◌≤◌, IsOk, IsTrue, Ok, length, take};
ghost use Rattle.dataset_meta.specs.Names.{is_name};
ghost use Rattle.key_service.specs.Laws.{IsReply, IsRequest};
ghost use Rattle.key_service.specs.Reading.{reply_in, request_in};
ghost use Rattle.key_service.specs.Spelling.{reply_bytes, request_bytes};

use crate::copying::copied;
use arrayvec::ArrayVec;
use dataset_meta::Name32;
use key_service::{Keys, Request, read_reply, read_request, write_reply, write_request};
use ua_binary::Pen;

/// No request is longer: the longest name, its length, and two numbers of four bytes.
const REQUEST_BYTES: usize = 44;

/// No reply is longer: the policy, two numbers of four bytes, 16 keys of 68 bytes with their lengths, and two spans.
const REPLY_BYTES: usize = 1197;

/// The bytes of the request.
pub(crate) fn request_of(group: &Name32, start: u32, count: u32) -> ArrayVec<u8, 44>
    ensures request { IsRequest group.now start count }
    ensures spelled { result.items ≡ request_bytes group.now start count }
{
    let mut room = [0; REQUEST_BYTES];
    let end = written_request(group, start, count, &mut room);
    copied(&room[..end])
}

/// Writes the request at the begin of the room, and gives its end.
fn written_request(group: &Name32, start: u32, count: u32, room: &mut [u8]) -> usize
    requires { length room.old ≡ 44 }
    ensures request { take result room.new ≡ request_bytes group.now start count }
    ensures within { result ≤ length room.new }
    ensures named { IsTrue (is_name group.now) }
{
    // It is a name, and so no longer than 32 bytes.
    let _name = group.as_bytes();
    let mut pen = Pen { bytes: room, at: 0 };
    match write_request(&mut pen, group, start, count) {
        Ok(()) => pen.at,
        Err(_) => unreachable!(),
    }
}

/// The request, as the service reads it in the bytes.
pub(crate) fn request_back(bytes: &[u8]) -> Request
    requires { IsOk (request_in bytes.now) }
    ensures { Ok result ≡ request_in bytes.now }
{
    match read_request(bytes) {
        Ok(request) => request,
        Err(_) => unreachable!(),
    }
}

/// The bytes of the reply of these keys.
pub(crate) fn reply_of(keys: &Keys) -> ArrayVec<u8, 1197>
    requires { IsReply keys.now }
    ensures { result.items ≡ reply_bytes keys.now }
{
    let mut room = [0; REPLY_BYTES];
    let end = written_reply(keys, &mut room);
    copied(&room[..end])
}

/// Writes the reply at the begin of the room, and gives its end.
fn written_reply(keys: &Keys, room: &mut [u8]) -> usize
    requires reply { IsReply keys.now }
    requires room { length room.old ≡ 1197 }
    ensures reply { take result room.new ≡ reply_bytes keys.now }
    ensures within { result ≤ length room.new }
{
    let mut pen = Pen { bytes: room, at: 0 };
    match write_reply(&mut pen, keys) {
        Ok(()) => pen.at,
        Err(_) => unreachable!(),
    }
}

/// The keys, as the puller reads them in the bytes of a reply.
pub(crate) fn reply_back(bytes: &[u8]) -> Keys
    requires { IsOk (reply_in bytes.now) }
    ensures { Ok result ≡ reply_in bytes.now }
{
    match read_reply(bytes) {
        Ok(keys) => keys,
        Err(_) => unreachable!(),
    }
}
