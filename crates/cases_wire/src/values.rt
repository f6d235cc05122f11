//! Rows of `ua_values` and `ua_binary`.
use case_lines::{
    Answer, CaseLine, Digits, LineFault, Shown, Told, kind_of, refused, said, value_of, written,
    yes_or_no,
};
use std::alloc::Global;
use ua_binary::{
    Cursor, Measured, Pen, ValueFault, read_data_value as read_measured,
    read_variant as read_value, write_data_value as write_measured, write_variant as write_value,
};
use ua_values::{Blob, Text, fits as fits_field};

/// `text BYTES`: how many bytes the text has, or the fault
pub fn text(alloc: Global, line: &mut CaseLine) -> Answer {
    let bytes = line.bytes(alloc);
    match Text::from_bytes(&bytes) {
        Ok(text) => kept(alloc, &bytes, text.as_bytes()),
        Err(fault) => refused(alloc, &fault),
    }
}

/// `blob BYTES`: how many bytes the blob has, or the fault
pub fn blob(alloc: Global, line: &mut CaseLine) -> Answer {
    let bytes = line.bytes(alloc);
    match Blob::from_bytes(&bytes) {
        Ok(blob) => kept(alloc, &bytes, blob.as_bytes()),
        Err(fault) => refused(alloc, &fault),
    }
}

/// How many bytes are kept, and whether they are those that were given.
fn kept(alloc: Global, given: &[u8], bytes: &[u8]) -> Answer {
    let mut told = Told::new(alloc);
    told.show(&bytes.len());
    told.named(" bytes, the same: ", Some(given == bytes));
    told.answer()
}

/// `fits KIND CAP BYTES`, the bytes of a Variant: whether its value fits such a field
pub fn fits(alloc: Global, line: &mut CaseLine) -> Answer {
    let kind = kind_of(line.word())?;
    let cap = line.u16();
    let bytes = line.bytes(alloc);
    let Ok(value) = read_value(&mut Cursor {
        bytes: &bytes,
        at: 0,
    }) else {
        return Err(LineFault::Condition);
    };
    yes_or_no(alloc, fits_field(&value, kind, cap))
}

/// `read_variant BYTES`: the value, and how many bytes are left, or the fault, or `moved` where it moves the cursor
pub fn read_variant(alloc: Global, line: &mut CaseLine) -> Answer {
    let bytes = line.bytes(alloc);
    let mut cursor = Cursor {
        bytes: &bytes,
        at: 0,
    };
    match read_value(&mut cursor) {
        Ok(value) => {
            let mut told = Told::new(alloc);
            told.show(&Shown(&value));
            told.named(", rest ", Some(bytes.len() - cursor.at));
            told.answer()
        }
        Err(fault) => refused_at(alloc, fault, cursor.at),
    }
}

/// `read_data_value BYTES`: the value, where there is one, the status, and how many bytes are left, or the fault
pub fn read_data_value(alloc: Global, line: &mut CaseLine) -> Answer {
    let bytes = line.bytes(alloc);
    let mut cursor = Cursor {
        bytes: &bytes,
        at: 0,
    };
    match read_measured(&mut cursor) {
        Ok(measured) => measured_text(alloc, &measured, bytes.len() - cursor.at),
        Err(fault) => refused_at(alloc, fault, cursor.at),
    }
}

fn measured_text(alloc: Global, measured: &Measured, rest: usize) -> Answer {
    let mut told = Told::new(alloc);
    match &measured.value {
        Some(value) => told.show(&Shown(value)),
        None => told.say("no value"),
    }
    told.status(", status ", measured.status);
    told.named(", rest ", Some(rest));
    told.answer()
}

/// The fault, or that the cursor moved.
fn refused_at(alloc: Global, fault: ValueFault, at: usize) -> Answer {
    if at == 0 {
        refused(alloc, &fault)
    } else {
        said(alloc, "moved")
    }
}

/// `kinds`: the type bytes that a Variant with 260 zeros behind them isn't KindOut for
pub fn kinds(alloc: Global) -> Answer {
    let mut told = Told::new(alloc);
    for first in 0..=255 {
        if is_kind(first) {
            told.word("", Some(Digits(&[first])));
        }
    }
    told.answer()
}

fn is_kind(first: u8) -> bool {
    let mut bytes = [0; 261];
    bytes[0] = first;
    let read = read_value(&mut Cursor {
        bytes: &bytes,
        at: 0,
    });
    read.err() != Some(ValueFault::KindOut)
}

/// `write_variant ROOM VALUE`: the bytes, or Room, in a buffer of so many bytes
pub fn write_variant(alloc: Global, line: &mut CaseLine) -> Answer {
    let mut room = [0xaa; 512];
    let len = usize::from(line.u16()).min(512);
    let value = value_of(alloc, &mut line.left)?;
    let mut pen = Pen {
        bytes: &mut room[..len],
        at: 0,
    };
    let done = write_value(&mut pen, &value).is_ok();
    let at = pen.at;
    written(alloc, done, 0, at, &room)
}

/// `write_data_value ROOM STATUS VALUE`, the status 0x.. or `none`: the bytes, or Room, in a buffer of so many bytes
pub fn write_data_value(alloc: Global, line: &mut CaseLine) -> Answer {
    let mut room = [0xaa; 512];
    let len = usize::from(line.u16()).min(512);
    let status = line.left.optional_hex()?;
    let value = value_of(alloc, &mut line.left)?;
    let mut pen = Pen {
        bytes: &mut room[..len],
        at: 0,
    };
    let done = write_measured(&mut pen, &value, status).is_ok();
    let at = pen.at;
    written(alloc, done, 0, at, &room)
}
