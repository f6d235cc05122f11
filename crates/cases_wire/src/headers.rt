//! Rows of `uadp_header`.
use crate::header_parts::HeaderParts;
use crate::senders::is_senders;
use crate::shown::tell_header;
use case_lines::{Answer, CaseLine, LineFault, Told, refused, written};
use std::alloc::Global;
use ua_binary::Pen;
use uadp_header::{header_len, read_header as read_one, write_header};

/// `read_header BYTES`: the header and where the payload begins, or the fault
pub fn read_header(alloc: Global, line: &mut CaseLine) -> Answer {
    let bytes = line.bytes(alloc);
    match read_one(&bytes) {
        Ok((header, end)) => {
            let mut told = Told::new(alloc);
            tell_header(&mut told, &header);
            told.named(" end=", Some(end));
            told.answer()
        }
        Err(fault) => refused(alloc, &fault),
    }
}

/// `spell_header HEADER`: the bytes of a sender's header
pub fn spell_header(alloc: Global, line: &mut CaseLine) -> Answer {
    let parts = HeaderParts::parse(alloc, &line.left)?;
    let header = parts.header();
    if !is_senders(&header) {
        return Err(LineFault::Condition);
    }
    let mut room = vec![in alloc; 0xaa; header_len(&header)]?;
    let mut pen = Pen {
        bytes: &mut room,
        at: 0,
    };
    let done = write_header(&mut pen, &header).is_ok();
    let at = pen.at;
    written(alloc, done, 0, at, &room)
}
