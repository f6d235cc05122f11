//! The payload of a chunk as bytes.
ghost use Rattle.std.specs.Prelude.{◌≡◌, ◌^◌, ◌<◌, length};
ghost use Rattle.ua_binary.specs.Reading.{ReadsAhead, lent};
ghost use Rattle.ua_binary.specs.Writing.{Writes};
ghost use Rattle.chunker.specs.Spelling.{chunk_bytes, data_at, chunk_at, chunk_in, told, without_rest};
ghost use Rattle.chunker.specs.declared.payload.ChunkFault.TheVariants as faults;

use std::error::Error;
use std::fmt;
use ua_binary::{Cursor, Pen, Room, Short};

/// How many bytes of a chunk's payload stand before its data.
pub const CHUNK_FRONT_BYTES: usize = 14;

/// The payload of a chunk's datagram (OPC 10000-14, the chunked NetworkMessage payload).
#[derive(Clone, Copy, Debug, PartialEq, Eq)]
pub struct ChunkPayload<'a> {
    /// MessageSequenceNumber, the number of the DataSetMessage.
    pub number: u16,
    /// ChunkOffset, in bytes.
    pub offset: u32,
    /// TotalSize of the message, in bytes.
    pub total: u32,
    /// ChunkData.
    pub data: &'a [u8],
}

/// Why bytes are no chunk: the first fault from left to right.
#[derive(Clone, Copy, Debug, PartialEq, Eq)]
pub enum ChunkFault {
    /// The bytes end before the chunk does.
    Short,
    /// The length of ChunkData is below -1 (OPC 10000-6 section 5.2.2.7). It is judged before the bytes that it counts.
    BadLength,
}

impl fmt::Display for ChunkFault {
    ghost use Rattle.std.specs.Prelude.{Some};
    ghost use Rattle.chunker.specs.FaultTexts.{chunk_fault};

    ghost output = { λ fault. Some (chunk_fault fault) };

    fn fmt<W: fmt::Write>(&self, f: &mut fmt::Formatter<W>) -> fmt::Result {
        f.write_str(match self {
            ChunkFault::Short => "the bytes end before the chunk does",
            ChunkFault::BadLength => "the length of the chunk's data is below -1",
        })
    }
}

impl Error for ChunkFault {}

impl From<Short> for ChunkFault {
    ghost from_gives = { λ _ fault. fault ≡ faults.Short };

    fn from(_short: Short) -> ChunkFault {
        ChunkFault::Short
    }
}

/// Reads a chunk. What follows it is passed over.
pub fn read_chunk(bytes: &[u8]) -> Result<ChunkPayload<'_>, ChunkFault>
    ensures { told result ≡ without_rest (chunk_at bytes.now) }
{
    let mut cursor = Cursor { bytes, at: 0 };
    read_payload(&mut cursor)
}

/// Writes a chunk: `CHUNK_FRONT_BYTES` bytes, and its data.
pub fn write_chunk(pen: &mut Pen<'_>, chunk: &ChunkPayload<'_>) -> Result<(), Room>
    requires { length chunk.now.data.now < 2 ^ 31 }
    ensures { Writes result pen.old pen.new (chunk_bytes (chunk_in chunk.now)) }
{
    if pen.room() < CHUNK_FRONT_BYTES + chunk.data.len() {
        return Err(Room);
    }
    pen.put_u16(chunk.number);
    pen.put_u32(chunk.offset);
    pen.put_u32(chunk.total);
    pen.put_u32(chunk.data.len() as u32);
    pen.put_bytes(chunk.data);
    Ok(())
}

#[tactic(auto, unfolding(crate::specs::Spelling::chunk_at))]
fn read_payload<'a>(cursor: &mut Cursor<'a>) -> Result<ChunkPayload<'a>, ChunkFault>
    ensures { ReadsAhead (told result) cursor.old cursor.new chunk_at }
{
    let number = cursor.read_u16()?;
    let offset = cursor.read_u32()?;
    let total = cursor.read_u32()?;
    let data = read_data(cursor)?;
    Ok(ChunkPayload {
        number,
        offset,
        total,
        data,
    })
}

// A ByteString of any length (OPC 10000-6 section 5.2.2.7); the null one is read as empty.
#[inline(always)]
#[tactic(auto, unfolding(crate::specs::Spelling::data_at))]
fn read_data<'a>(cursor: &mut Cursor<'a>) -> Result<&'a [u8], ChunkFault>
    ensures { ReadsAhead (lent result) cursor.old cursor.new data_at }
{
    let len = match cursor.read_u32()?.cast_signed() {
        -1 => 0,
        len @ 0.. => len as usize,
        _ => return Err(ChunkFault::BadLength),
    };
    Ok(cursor.read_bytes(len)?)
}
