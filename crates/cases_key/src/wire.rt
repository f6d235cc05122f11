//! Rows of requests, and of replies that are read.
use crate::bench::name_of;
use crate::shown::{ShownKeys, ShownSets, written};
use case_lines::{Answer, CaseLine, refused, said, told};
use key_service::{
    Keys, can_be_pulled, pulled, pulled_for, read_reply, read_request, write_request,
};
use std::alloc::Global;
use ua_binary::Pen;

/// `request NAME START COUNT ROOM`: the bytes, or Room, in a buffer of so many bytes
pub fn request(alloc: Global, line: &mut CaseLine) -> Answer {
    let name = name_of(line)?;
    let (start, count) = (line.u32(), line.u32());
    let mut room = [0xaa; 64];
    let len = usize::from(line.u16()).min(64);
    let mut pen = Pen {
        bytes: &mut room[..len],
        at: 0,
    };
    let done = write_request(&mut pen, &name, start, count).is_ok();
    let at = pen.at;
    written(alloc, done, at, &room)
}

/// `read_request BYTES`: the group, the token and the number of keys, or the fault
pub fn read_request_row(alloc: Global, line: &mut CaseLine) -> Answer {
    let bytes = line.bytes(alloc);
    match read_request(&bytes) {
        Ok(request) => {
            let (start, count) = (request.start, request.count);
            Ok(Some(format!(in alloc; "{} {start} {count}", request.group.as_str())?))
        }
        Err(fault) => refused(alloc, &fault),
    }
}

/// `read_reply BYTES`: the keys, with the moments of a puller, or the fault
pub fn read_reply_row(alloc: Global, line: &mut CaseLine) -> Answer {
    let bytes = line.bytes(alloc);
    match read_reply(&bytes) {
        Ok(keys) => told(alloc, &ShownKeys(&keys)),
        Err(fault) => refused(alloc, &fault),
    }
}

/// `pull_reply BYTES`: the ring that a puller makes of the reply, or that there is none, or the fault
pub fn pull_reply(alloc: Global, line: &mut CaseLine) -> Answer {
    let bytes = line.bytes(alloc);
    match read_reply(&bytes) {
        Ok(keys) => pulled_ring(alloc, &keys),
        Err(fault) => refused(alloc, &fault),
    }
}

fn pulled_ring(alloc: Global, keys: &Keys) -> Answer {
    if !can_be_pulled(keys) {
        return said(alloc, "no ring");
    }
    let ring = pulled(keys);
    told(alloc, &ShownSets(ring.key_sets()))
}

/// `pull_for LONG CLOCK BYTES`: the ring of the reply for a key group whose keys are of AES-256 (`long`) or not, or that there is none
pub fn pull_for(alloc: Global, line: &mut CaseLine) -> Answer {
    let long = line.word() == "long";
    let clock = line.u64();
    let bytes = line.bytes(alloc);
    match read_reply(&bytes) {
        Ok(keys) => match pulled_for(long, &keys, clock) {
            Some(ring) => told(alloc, &ShownSets(ring.key_sets())),
            None => said(alloc, "no ring"),
        },
        Err(fault) => refused(alloc, &fault),
    }
}
