//! Writing messages.
ghost use Rattle.std.specs.Prelude.{◌≡◌, List, IfOk, IsUtf8, OnOk, Some, unwrap_or};
ghost use Rattle.std.specs.List.{All};
ghost use Rattle.serde_json.specs.Read.{read};
ghost use Rattle.serde_json.specs.View.{view, items_view, members_view};
ghost use Rattle.serde_json.specs.Written.{compact_text};
ghost use Rattle.dataset_meta.specs.declared.field.Field.{Field};
ghost use Rattle.row_words.specs.Belonging.{Belongs, row_in};
ghost use Rattle.row_words.specs.Patches.{IsPatchOf, patch_in};
ghost use Rattle.frame_codec.specs.Words.{content_in, IsKindOf, IsFrameOf};
ghost use Rattle.json_frames.specs.Parts.{numbered, IsPartOf, part_in, parts_in, meta_at};
ghost use Rattle.json_frames.specs.Written.{kind_word, fields_json, elements_json, payload_json, versions_json, element_of, element_json, fixed_members, message_json, put_if};
ghost use Rattle.json_frames.specs.Documents.{value_of};
ghost use Rattle.json_frames.specs.Calls.{view_if};

use crate::message::{JsonMessage, JsonPart};
use crate::payload::fields_json;
use dataset_meta::Meta;
use frame_codec::FrameKind;
use itoa::Buffer;
use row_words::{Patch, Row};
use serde_json::{Map, Value as Json, json, put};
use std::alloc::{AllocError, Global};
use std::str;
use ua_base::NoMemory;

/// The message in compact JSON (OPC 10000-14 section 7.2.5), with the members in the order of their
/// names. Each part's `set` is the place of a meta, its frame is one of that meta and has a number, and
/// both versions or neither.
pub fn write_json(alloc: Global, metas: &[Meta], message: &JsonMessage) -> Result<Vec<u8>, NoMemory>
    requires { All (IsPartOf metas.now) message.now.parts }
    ensures text { IfOk result (λ text. text.items ≡ compact_text (message_json metas.now
        message.now.id message.now.publisher (parts_in metas.now message.now.parts))) }
    ensures value { IfOk result (λ text. value_of text.items ≡ Some (message_json metas.now
        message.now.id message.now.publisher (parts_in metas.now message.now.parts))) }
{
    let json = message_json(alloc, metas, message)?;
    Ok(json.to_vec(alloc)?)
}

#[tactic(auto, unfolding(crate::specs::Written::message_json))]
fn message_json(alloc: Global, metas: &[Meta], message: &JsonMessage) -> Result<Json, AllocError>
    requires { All (IsPartOf metas.now) message.now.parts }
    ensures { IfOk result (λ json. view json ≡ message_json metas.now message.now.id
        message.now.publisher (parts_in metas.now message.now.parts)) }
{
    let messages = elements_json(alloc, metas, message.parts.as_slice())?;
    let mut buffer = Buffer::new();
    let id = buffer.format(message.id);
    let publisher = text_of(message.publisher.as_bytes());
    json!(in alloc; {
        "MessageId": id,
        "MessageType": "ua-data",
        "Messages": Json::Array(messages),
        "PublisherId": publisher
    })
}

fn elements_json(alloc: Global, metas: &[Meta], parts: &[JsonPart]) -> Result<Vec<Json>, AllocError>
    requires { All (IsPartOf metas.now) parts.now }
    ensures { IfOk result (λ found. items_view found.items
        ≡ elements_json metas.now (parts_in metas.now parts.now)) }
{
    let mut elements = Vec::new(alloc);
    for part in parts {
        elements.push(element_json(alloc, metas, part)?)?;
    }
    Ok(elements)
}

fn element_json(alloc: Global, metas: &[Meta], part: &JsonPart) -> Result<Json, AllocError>
    requires { IsPartOf metas.now part.now }
    ensures { IfOk result (λ json. view json
        ≡ element_json metas.now (part_in metas.now part.now)) }
{
    part_json(alloc, &metas[usize::from(part.set)], part)
}

fn text_of(bytes: &[u8]) -> &str
    requires { IsUtf8 bytes.now }
    ensures { result.now ≡ bytes.now }
{
    match str::from_utf8(bytes) {
        Ok(text) => text,
        Err(_) => unreachable!(),
    }
}

fn part_json(alloc: Global, meta: &Meta, part: &JsonPart) -> Result<Json, AllocError>
    requires { IsFrameOf meta.now part.now.frame }
    ensures { IfOk result (λ json. view json ≡ element_of part.now.writer
        (kind_word (content_in meta.now.fields part.now.frame.kind))
        (versions_json part.now.frame.major part.now.frame.minor)
        (payload_json meta.now (content_in meta.now.fields part.now.frame.kind))
        (unwrap_or part.now.frame.number 0)) }
{
    let versions = versions_json(alloc, part.frame.major, part.frame.minor)?;
    let payload = payload_json(alloc, meta, &part.frame.kind)?;
    let word = kind_word(&part.frame.kind);
    let number = part.frame.number.unwrap_or(0);
    element_of(alloc, part.writer, word, versions, payload, number)
}

fn element_of(
    alloc: Global,
    writer: u16,
    word: &str,
    versions: Option<Json>,
    payload: Option<Json>,
    number: u16,
) -> Result<Json, AllocError>
    ensures { IfOk result (λ json. view json
        ≡ element_of writer word.now (view_if versions) (view_if payload) number) }
{
    let mut members = fixed_members(alloc, writer, word, number)?;
    put_if(alloc, &mut members, "MetaDataVersion", versions)?;
    put_if(alloc, &mut members, "Payload", payload)?;
    Ok(Json::Object(members))
}

/// The members that every message has.
fn fixed_members(
    alloc: Global,
    writer: u16,
    word: &str,
    number: u16,
) -> Result<Map<String, Json>, AllocError>
    ensures { IfOk result
        (λ members. members_view members.entries ≡ fixed_members writer word.now number) }
{
    let mut members = Map::new(alloc);
    put(&mut members, alloc, "DataSetWriterId", Json::from(writer))?;
    put(
        &mut members,
        alloc,
        "MessageType",
        Json::try_from_str(alloc, word)?,
    )?;
    put(&mut members, alloc, "SequenceNumber", Json::from(number))?;
    Ok(members)
}

/// A value in its place among members, where it is there.
fn put_if(
    alloc: Global,
    members: &mut Map<String, Json>,
    name: &str,
    value: Option<Json>,
) -> Result<(), AllocError>
    ensures { OnOk result (members_view members.new.entries
        ≡ put_if name.now (view_if value) (members_view members.old.entries)) }
{
    match value {
        None => Ok(()),
        Some(value) => put(members, alloc, name, value),
    }
}

fn versions_json(
    alloc: Global,
    major: Option<u32>,
    minor: Option<u32>,
) -> Result<Option<Json>, AllocError>
    ensures { IfOk result (λ made. view_if made ≡ versions_json major minor) }
{
    let Some(major) = major else {
        return Ok(None);
    };
    let Some(minor) = minor else {
        return Ok(None);
    };
    let versions = json!(in alloc; {"MajorVersion": major, "MinorVersion": minor})?;
    Ok(Some(versions))
}

fn payload_json(alloc: Global, meta: &Meta, kind: &FrameKind) -> Result<Option<Json>, AllocError>
    requires { IsKindOf meta.now kind.now }
    ensures { IfOk result (λ made. view_if made
        ≡ payload_json meta.now (content_in meta.now.fields kind.now)) }
{
    match kind {
        FrameKind::Whole(row) => Ok(Some(row_json(alloc, meta, row)?)),
        FrameKind::Change(patch) => Ok(Some(patch_json(alloc, meta, patch)?)),
        FrameKind::Alive => Ok(None),
    }
}

fn row_json(alloc: Global, meta: &Meta, row: &Row) -> Result<Json, AllocError>
    requires { Belongs meta.now row.now.words }
    ensures { IfOk result (λ json. view json
        ≡ fields_json meta.now (numbered 0 (row_in meta.now.fields row.now.words))) }
{
    prove!(meta.fields().len() <= 64);
    fields_json(alloc, meta, row, u64::MAX)
}

#[tactic(auto, unfolding(row_words::specs::Patches::patch_in))]
fn patch_json(alloc: Global, meta: &Meta, patch: &Patch) -> Result<Json, AllocError>
    requires { IsPatchOf meta.now patch.now }
    ensures { IfOk result (λ json. view json
        ≡ fields_json meta.now (patch_in meta.now.fields patch.now)) }
{
    fields_json(alloc, meta, &patch.row, patch.mask)
}

fn kind_word(kind: &FrameKind) -> &'static str
    ensures { (fields : List Field) → result.now ≡ kind_word (content_in fields kind.now) }
{
    match kind {
        FrameKind::Whole(_) => "ua-keyframe",
        FrameKind::Change(_) => "ua-deltaframe",
        FrameKind::Alive => "ua-keepalive",
    }
}
