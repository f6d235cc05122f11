//! What is transcoded of a datagram.
ghost use Rattle.std.specs.Prelude.{◌≡◌, ◌≤◌, ◌*◌, ◌+◌, IfOk, OnOk, length, map, take, drop, zip, All};
ghost use Rattle.std.specs.Int.{w16, from_le_bytes};
ghost use Rattle.uadp_header.specs.Headers.{ListOf, ids_of, ids_in, header_in};
ghost use Rattle.uadp_header.specs.Spelling.{AreIds};
ghost use Rattle.payload_layout.specs.Payloads.{frame_at, IsWithin};
ghost use Rattle.json_tap.specs.Transcoding.{all_of, part_of, listed, parts_for, message_in, transcoded};
ghost use Rattle.json_tap.specs.Keeping.{line_for};
ghost use Rattle.json_tap.specs.Reading.{IsReadBack};
ghost use Rattle.json_tap.specs.Parts.{ArePartsIf, IsMessageIf};

use crate::line::JsonLine;
use crate::part::part_of;
use crate::publisher::publisher_of;
use json_frames::{JsonMessage, JsonPart, JsonParts, write_json};
use payload_layout::{Part, Parts, split};
use ps_config::Config;
use std::alloc::Global;
use ua_base::NoMemory;
use uadp_header::{Header, Ids, read_header};

/// The line of a datagram, where it gives one.
pub fn line_for(
    alloc: Global,
    config: &Config,
    number: u64,
    datagram: &[u8],
) -> Result<Option<JsonLine>, NoMemory>
    ensures line { IfOk result (λ line. line ≡ line_for config.now number datagram.now) }
    ensures read { OnOk result (IsReadBack config.now number datagram.now) }
{
    match message_of(alloc, config, number, datagram)? {
        None => Ok(None),
        Some(message) => {
            let bytes = write_json(alloc, config.dataset.as_slice(), &message)?;
            Ok(Some(JsonLine::new(bytes)))
        }
    }
}

#[tactic(auto, unfolding(crate::specs::Transcoding::transcoded))]
fn message_of(
    alloc: Global,
    config: &Config,
    number: u64,
    datagram: &[u8],
) -> Result<Option<JsonMessage>, NoMemory>
    ensures { IfOk result (λ found.
        IsMessageIf config.now number found (transcoded config.now datagram.now)) }
{
    match read_header(datagram) {
        Ok((header, payload)) => {
            message_in(alloc, config, number, &header, &datagram[payload..])
        }
        Err(_) => Ok(None),
    }
}

/// The message of a datagram with this header and payload.
fn message_in(
    alloc: Global,
    config: &Config,
    number: u64,
    header: &Header<'_>,
    payload: &[u8],
) -> Result<Option<JsonMessage>, NoMemory>
    requires { AreIds (ids_in header.now.ids) }
    ensures { IfOk result (λ found. IsMessageIf config.now number found
        (message_in config.now (header_in header.now) payload.now)) }
{
    if header.security.is_some() {
        return Ok(None);
    }
    let Some(publisher) = publisher_of(header.publisher) else {
        return Ok(None);
    };
    let Some(parts) = parts_for(alloc, config, header.ids, payload)? else {
        return Ok(None);
    };
    Ok(Some(JsonMessage {
        id: number,
        publisher,
        parts,
    }))
}

/// The frames of a payload, by the ids of its header.
fn parts_for(
    alloc: Global,
    config: &Config,
    ids: Ids<'_>,
    payload: &[u8],
) -> Result<Option<JsonParts>, NoMemory>
    requires { AreIds (ids_in ids) }
    ensures { IfOk result (λ found.
        ArePartsIf config.now found (parts_for config.now (ids_in ids.entry) payload.now)) }
{
    match ids {
        Ids::None | Ids::Chunk(_) => Ok(None),
        Ids::List(bytes) => listed(alloc, config, bytes, payload),
    }
}

fn listed(
    alloc: Global,
    config: &Config,
    ids: &[u8],
    payload: &[u8],
) -> Result<Option<JsonParts>, NoMemory>
    requires { AreIds (ListOf ids.now) }
    ensures { IfOk result (λ found.
        ArePartsIf config.now found (listed config.now ids.now payload.now)) }
{
    let count = (ids.len() / 2) as u8;
    let mut places = Parts::new();
    match split(payload, count, &mut places) {
        Ok(()) => parts_at(alloc, config, ids, payload, places.as_slice()),
        Err(_) => Ok(None),
    }
}

/// The frames at these places, with the ids of their writers.
fn parts_at(
    alloc: Global,
    config: &Config,
    ids: &[u8],
    payload: &[u8],
    places: &[Part],
) -> Result<Option<JsonParts>, NoMemory>
    requires count { length ids.now ≡ 2 * length places.now }
    requires within { All (IsWithin payload.now) places.now }
    ensures { IfOk result (λ found. ArePartsIf config.now found
        (all_of (map (part_of config.now)
        (zip (ids_of ids.now) (map (frame_at payload.now) places.now))))) }
{
    let mut parts = Vec::new(alloc);
    for index in 0..places.len() {
        match part_of(config, id_at(ids, index), bytes_at(payload, places[index])) {
            Some(part) => parts.push(part)?,
            None => return Ok(None),
        }
    }
    Ok(Some(JsonParts::new(parts)))
}

/// The id with this index.
fn id_at(ids: &[u8], index: usize) -> u16
    requires { 2 * (index + 1) ≤ length ids.now }
    ensures { result ≡ from_le_bytes w16 (take 2 (drop (2 * index) ids.now)) }
{
    u16::from_le_bytes([ids[2 * index], ids[2 * index + 1]])
}

fn bytes_at(payload: &[u8], place: Part) -> &[u8]
    requires { IsWithin payload.now place }
    ensures { result.now ≡ frame_at payload.now place }
{
    &payload[place.start..place.end]
}
