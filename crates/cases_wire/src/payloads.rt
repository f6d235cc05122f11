//! Rows of `payload_layout`.
use arrayvec::ArrayVec;
use case_lines::{Answer, CaseLine, LineFault, Told, number, said, written};
use payload_layout::{
    Packs, Parts, plan as plan_packs, split as split_parts, write_sizes as write_list,
};
use std::alloc::Global;
use ua_binary::Pen;

/// `plan ROOM SIZE ..`: the packs, each with how many frames it has, and `cut` behind one that is to be cut
pub fn plan(alloc: Global, line: &mut CaseLine) -> Answer {
    let room = line.u32();
    let sizes = sizes_of(line)?;
    let mut packs = Packs::new();
    plan_packs(&sizes, room, &mut packs);
    let mut told = Told::new(alloc);
    for pack in packs.iter() {
        told.apart(", ");
        told.show(&pack.count);
        told.say(if pack.chunked { " cut" } else { "" });
    }
    told.answer_or("none")
}

/// `split COUNT BYTES`: the parts as START-END, or BadSizes
pub fn split(alloc: Global, line: &mut CaseLine) -> Answer {
    let Ok(count) = u8::try_from(line.u16()) else {
        return Err(LineFault::Number);
    };
    let bytes = line.bytes(alloc);
    let mut parts = Parts::new();
    if split_parts(&bytes, count, &mut parts).is_err() {
        let kept = parts.is_empty();
        return said(alloc, if kept { "BadSizes" } else { "BadSizes left" });
    }
    let mut told = Told::new(alloc);
    for part in parts.iter() {
        told.apart(", ");
        told.fill("#-#", &[part.start as u64, part.end as u64]);
    }
    told.answer_or("none")
}

/// `write_sizes ROOM SIZE ..`: the bytes written into so much room, or Room
pub fn write_sizes(alloc: Global, line: &mut CaseLine) -> Answer {
    let mut room = [0xaa; 64];
    let len = usize::from(line.u16()).min(64);
    let sizes = sizes_of(line)?;
    let mut pen = Pen {
        bytes: &mut room[..len],
        at: 0,
    };
    let done = write_list(&mut pen, &sizes).is_ok();
    let at = pen.at;
    if done && at == 0 {
        return said(alloc, "nothing");
    }
    written(alloc, done, 0, at, &room)
}

/// The sizes that are left in the line, at most 16.
fn sizes_of(line: &CaseLine) -> Result<ArrayVec<u16, 16>, LineFault> {
    let mut sizes = ArrayVec::new();
    for word in line.words() {
        if sizes.is_full() {
            return Err(LineFault::Condition);
        }
        sizes.push(number::<u16>(word)?);
    }
    Ok(sizes)
}
