//! Why messages can't be read.
use crate::cause::Cause;
use crate::heard::Heard;
use crate::text::{Piece, fill};
use chunker::ChunkFault;
use dataset_meta::{Field, Meta};
use example_parts::Fault;
use frame_codec::{FieldFault, FrameFault};
use ps_config::ReaderPart;
use reader_group::PartFault;
use ua_values::Kind;

/// The cause of a fault of a part of this datagram, for this reader of a data set with so many fields.
pub fn part_cause(fault: PartFault, heard: &Heard, part: &ReaderPart, fields: u64) -> Cause {
    match fault {
        PartFault::Frame(fault) => frame_cause(fault, fields),
        PartFault::Chunk(ChunkFault::Short) => Cause::named("ChunkShort"),
        PartFault::Chunk(ChunkFault::BadLength) => Cause::named("BadLength"),
        PartFault::TooLong { total } => {
            let total = u64::from(total);
            Cause::told(
                "TooLong",
                ", came # bytes, at most 4096 are joined",
                total,
                0,
            )
        }
        PartFault::BadRange { offset, total } => {
            let pattern = ", came from byte # on, of # in all";
            Cause::told("BadRange", pattern, u64::from(offset), u64::from(total))
        }
        PartFault::Differs { first, now } => {
            let pattern = ", came # bytes in all, wanted # as in the chunk before";
            Cause::told("Differs", pattern, u64::from(now), u64::from(first))
        }
        PartFault::Missing => {
            let end = u64::from(part.offset).saturating_add(u64::from(part.size));
            let pattern = ", the datagram has # bytes, the slot ends at #";
            Cause::told("Missing", pattern, heard.bytes, end)
        }
    }
}

fn frame_cause(fault: FrameFault, fields: u64) -> Cause {
    match fault {
        FrameFault::Short => Cause::named("Short"),
        FrameFault::BadEncoding => Cause::named("BadEncoding"),
        FrameFault::KindOut => Cause::named("KindOut"),
        FrameFault::BadValue => Cause::named("BadValue"),
        FrameFault::BadIndex { got } => {
            Cause::told("BadIndex", ", came #, of # fields", u64::from(got), fields)
        }
        FrameFault::WrongCount { got } => {
            let pattern = ", came # fields, wanted #";
            Cause::told("WrongCount", pattern, u64::from(got), fields)
        }
        FrameFault::Trailing => Cause::named("Trailing"),
        FrameFault::NotValid => Cause::named("NotValid"),
        FrameFault::EventOut => Cause::named("EventOut"),
        FrameFault::ReservedBits => Cause::named("ReservedBits"),
    }
}

/// Which field has the fault, what type its value is of, and what is wanted.
pub fn put_field(out: &mut Vec<u8>, fault: &FieldFault, meta: &Meta) -> Result<(), Fault> {
    let field = meta.fields().get(usize::from(fault.index));
    fill(out, " at field #", &[Piece::Number(u64::from(fault.index))])?;
    if let Some(field) = field {
        fill(out, " #", &[Piece::Word(field.name.as_str())])?;
    }
    match fault.type_byte {
        Some(byte) => put_type(out, byte)?,
        None => fill(out, ", came no value", &[])?,
    }
    match field {
        Some(field) => put_wanted(out, field),
        None => Ok(()),
    }
}

fn put_type(out: &mut Vec<u8>, byte: u8) -> Result<(), Fault> {
    let array = if byte & 128 != 0 { "array of " } else { "" };
    let word = match TYPES.get(usize::from(byte & 63)) {
        Some((word, _)) => *word,
        None => "no type",
    };
    fill(
        out,
        ", came type byte # ##",
        &[Piece::Byte(byte), Piece::Word(array), Piece::Word(word)],
    )
}

fn put_wanted(out: &mut Vec<u8>, field: &Field) -> Result<(), Fault> {
    fill(out, ", wanted #", &[Piece::Word(kind_word(field.kind))])?;
    if field.cap > 0 {
        let cap = u64::from(field.cap);
        fill(out, " of # bytes at most", &[Piece::Number(cap)])?;
    }
    Ok(())
}

fn kind_word(kind: Kind) -> &'static str {
    for (word, one) in TYPES.iter() {
        if *one == Some(kind) {
            return word;
        }
    }
    "no type"
}

/// The built-in types by their numbers (OPC 10000-6 5.1.2), with the kinds that fields can have. A null Variant has the number 0.
const TYPES: [(&str, Option<Kind>); 26] = [
    ("null", None),
    ("Boolean", Some(Kind::Boolean)),
    ("SByte", Some(Kind::SByte)),
    ("Byte", Some(Kind::Byte)),
    ("Int16", Some(Kind::Int16)),
    ("UInt16", Some(Kind::UInt16)),
    ("Int32", Some(Kind::Int32)),
    ("UInt32", Some(Kind::UInt32)),
    ("Int64", Some(Kind::Int64)),
    ("UInt64", Some(Kind::UInt64)),
    ("Float", Some(Kind::Float)),
    ("Double", Some(Kind::Double)),
    ("String", Some(Kind::String)),
    ("DateTime", Some(Kind::DateTime)),
    ("Guid", Some(Kind::Guid)),
    ("ByteString", Some(Kind::ByteString)),
    ("XmlElement", None),
    ("NodeId", None),
    ("ExpandedNodeId", None),
    ("StatusCode", Some(Kind::StatusCode)),
    ("QualifiedName", None),
    ("LocalizedText", None),
    ("ExtensionObject", None),
    ("DataValue", None),
    ("Variant", None),
    ("DiagnosticInfo", None),
];
