//! Rows of `chunker`.
use case_lines::{Answer, CaseLine, Hex, LineFault, Told, refused, two, written, yes_or_no};
use chunker::{ChunkPayload, Joined, Joiner, read_chunk as read_one, write_chunk as write_one};
use std::alloc::Global;
use ua_binary::Pen;

/// `read_chunk BYTES`: number, offset, total and the data, or the fault
pub fn read_chunk(alloc: Global, line: &mut CaseLine) -> Answer {
    let bytes = line.bytes(alloc);
    match read_one(&bytes) {
        Ok(chunk) => {
            let mut told = Told::new(alloc);
            let (offset, total) = (chunk.offset as u64, chunk.total as u64);
            told.fill("# # # ", &[chunk.number as u64, offset, total]);
            told.show(&Hex(chunk.data));
            told.answer()
        }
        Err(fault) => refused(alloc, &fault),
    }
}

/// `write_chunk NUMBER OFFSET TOTAL ROOM BYTES`: what is written into so much room, or Room
pub fn write_chunk(alloc: Global, line: &mut CaseLine) -> Answer {
    let (number, offset, total) = (line.u16(), line.u32(), line.u32());
    let mut room = [0xaa; 512];
    let len = usize::from(line.u16()).min(512);
    let data = line.bytes(alloc);
    if data.len() > 512 {
        return Err(LineFault::Condition);
    }
    let chunk = ChunkPayload {
        number,
        offset,
        total,
        data: &data,
    };
    let mut pen = Pen {
        bytes: &mut room[..len],
        at: 0,
    };
    let done = write_one(&mut pen, &chunk).is_ok();
    let at = pen.at;
    written(alloc, done, 0, at, &room)
}

/// The joiner that the lines speak of.
#[derive(Drop)]
pub struct JoinerRows {
    joiner: Joiner,
}

impl JoinerRows {
    pub fn new() -> JoinerRows {
        JoinerRows {
            joiner: Joiner::new(),
        }
    }

    /// `joiner`: a new one
    pub fn anew(&mut self) -> Answer {
        self.joiner = Joiner::new();
        Ok(None)
    }

    /// `joiner_clear`
    pub fn clear(&mut self) -> Answer {
        self.joiner.clear();
        Ok(None)
    }

    /// `chunk NUMBER OFFSET TOTAL BYTES`: what it makes of its message
    pub fn chunk(&mut self, alloc: Global, line: &mut CaseLine) -> Answer {
        let (number, offset, total) = (line.u16(), line.u32(), line.u32());
        let part = line.bytes(alloc);
        let mut told = Told::new(alloc);
        match self.joiner.chunk(number, offset, total, &part) {
            Joined::Whole(len) => told.fill("whole #", &[len as u64]),
            Joined::Part => told.say("part"),
            Joined::Older => told.say("older"),
            Joined::TooLong { total } => told.fill("toolong #", &[total as u64]),
            Joined::BadRange { offset, total } => {
                told.fill("badrange # #", &[offset as u64, total as u64]);
            }
            Joined::Differs { first, now } => told.fill("differs # #", &[first as u64, now as u64]),
        }
        told.answer()
    }

    /// `joined`: the bytes of the whole message
    pub fn joined(&self, alloc: Global) -> Answer {
        two(alloc, &"joined", &Hex(self.joiner.bytes()))
    }

    /// `joined_is BYTES`: whether these are the bytes of the whole message
    pub fn is(&self, alloc: Global, line: &mut CaseLine) -> Answer {
        let bytes = line.bytes(alloc);
        yes_or_no(alloc, self.joiner.bytes() == bytes.as_slice())
    }
}
