//! What a group's configuration says of its datagrams.
ghost use Rattle.std.specs.Prelude.{◌≡◌, ◌≤◌, is_some, length};
ghost use Rattle.ua_binary.specs.Wire.{flag};
ghost use Rattle.uadp_header.specs.Spelling.{len_if};
ghost use Rattle.writer_group.specs.Envelopes.{frame_room};
ghost use Rattle.writer_group.specs.Payloads.{fixed_header};
ghost use Rattle.writer_group.specs.Setup.{rooms_of};
ghost use Rattle.writer_group.specs.Turns.{settings_of};

use crate::header_parts::whole;
use dataset_writer::WriterSettings;
use ps_config::{GroupPart, Publisher, WriterPart, chunk_room, header_size, signature_size};

/// The bytes of a payload header that lists one writer: a count and an id.
const ONE_WRITER_BYTES: u32 = 3;

/// What a writer of the configuration is set to.
pub(crate) fn settings_of(writer: &WriterPart) -> WriterSettings
    ensures { result ≡ settings_of writer.now }
{
    WriterSettings {
        first_number: writer.first_number,
        key_frame_count: writer.key_frame_count,
        keep_alive: writer.keep_alive,
        versions: writer.versions,
    }
}

/// What the datagrams of a group have room for, in bytes.
#[derive(Clone, Copy, Debug, PartialEq, Eq)]
pub(crate) struct Rooms {
    /// For their payload, with one writer id in the header.
    pub frame: u32,
    /// For a part of a frame that is split into chunks.
    pub chunk: u32,
}

/// The rooms of this group.
pub(crate) fn rooms_of(publisher: &Publisher, group: &GroupPart) -> Rooms
    ensures { result ≡ rooms_of publisher.now group.now }
{
    Rooms {
        frame: frame_room(publisher, group),
        chunk: chunk_room(publisher, group),
    }
}

/// What a datagram has for its payload, with one writer id in its header.
fn frame_room(publisher: &Publisher, group: &GroupPart) -> u32
    ensures { result ≡ frame_room publisher.now group.now }
{
    let header = fixed_header(publisher, group) + ONE_WRITER_BYTES;
    group
        .max_size
        .saturating_sub(header + signature_size(group.security))
}

/// How long the header of a fixed datagram is.
pub(crate) fn fixed_header(publisher: &Publisher, group: &GroupPart) -> u32
    ensures size { result ≡ fixed_header publisher.now group.now }
    ensures bound { result ≤ 400 }
{
    header_size(publisher, &group.header_settings(), false)
}

/// A class id has 16 bytes, by its type.
pub(crate) fn a_class_id_is_whole(group: &GroupPart)
    ensures { len_if length group.now.class_id ≡ flag (is_some group.now.class_id) 16 }
{
    let _id = whole(group.class_id);
}
