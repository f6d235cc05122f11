//! Rows of a service's answers.
use crate::bench::name_of;
use crate::read_back::pulled_back;
use crate::shown::{ShownKeys, ShownSets, written};
use case_lines::{Answer, CaseLine, LineFault, refused, said, told};
use key_service::{KeyFault, Keys, Service, write_reply};
use std::alloc::Global;
use ua_binary::Pen;

/// `get NAME START COUNT NOW`: the answer, or the fault
pub fn get(alloc: Global, service: &Service, line: &mut CaseLine) -> Answer {
    match asked(service, line)? {
        Ok(keys) => told(alloc, &ShownKeys(&keys)),
        Err(fault) => refused(alloc, &fault),
    }
}

/// `reply NAME START COUNT NOW ROOM`: the bytes of the answer, or Room, in a buffer of so many bytes
pub fn reply(alloc: Global, service: &Service, line: &mut CaseLine) -> Answer {
    let keys = match asked(service, line)? {
        Ok(keys) => keys,
        Err(fault) => return refused(alloc, &fault),
    };
    let mut room = [0xaa; 2048];
    let len = usize::from(line.u16()).min(2048);
    let mut pen = Pen {
        bytes: &mut room[..len],
        at: 0,
    };
    let done = write_reply(&mut pen, &keys).is_ok();
    let at = pen.at;
    written(alloc, done, at, &room)
}

fn asked(service: &Service, line: &mut CaseLine) -> Result<Result<Keys, KeyFault>, LineFault> {
    let name = name_of(line)?;
    let (start, count, now) = (line.u32(), line.u32(), line.u64());
    Ok(service.get(now, &name, start, count))
}

/// `pull NAME COUNT NOW`: the ring that a puller makes of the answer to start 0, once it was written and read back
pub fn pull(alloc: Global, service: &Service, line: &mut CaseLine) -> Answer {
    let name = name_of(line)?;
    let (count, now) = (line.u32(), line.u64());
    let keys = match service.get(now, &name, 0, count) {
        Ok(keys) => keys,
        Err(fault) => return refused(alloc, &fault),
    };
    match pulled_back(&keys) {
        Some(ring) => told(alloc, &ShownSets(ring.key_sets())),
        None => said(alloc, "Room"),
    }
}
