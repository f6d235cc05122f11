//! Reading the elements of a message.
ghost use Rattle.std.specs.Prelude.{◌≡◌, ◌<◌, Some, codes, length, option_map};
ghost use Rattle.serde_json.specs.View.{view};
ghost use Rattle.json_values.specs.Numbers.{text_at as text_of};
ghost use Rattle.json_frames.specs.Parts.{meta_at};
ghost use Rattle.json_frames.specs.Reading.{writer_at, set_of, versions_at, HavePlaces};
ghost use Rattle.json_frames.specs.Calls.{IsElement, IsPayload, IsContentRead, IsFrameRead};

use crate::message::JsonPart;
use crate::payload::read_fields;
use dataset_meta::Meta;
use frame_codec::{Frame, FrameKind};
use json_values::{number_at, text_at};
use row_words::Patch;
use serde_json::Value as Json;

/// What an element of the messages is.
#[derive(Clone, Copy, Debug)]
pub enum Element {
    /// One of a writer for which no data set is named.
    Other,
    Gives(JsonPart),
    /// One that should give a part, and gives none.
    Bad,
}

/// What an element of the messages is, a DataSetMessage (OPC 10000-14 section 7.2.5).
pub fn read_element(metas: &[Meta], sets: &[(u16, u8)], json: &Json) -> Element
    requires { HavePlaces metas.now sets.now }
    ensures { IsElement metas.now sets.now (view json.now) result }
{
    let Some(writer) = writer_at(json) else {
        return Element::Bad;
    };
    let Some(set) = set_of(sets, writer) else {
        return Element::Other;
    };
    match read_frame(meta_of(metas, set), json) {
        Some(frame) => Element::Gives(JsonPart { writer, set, frame }),
        None => Element::Bad,
    }
}

fn meta_of(metas: &[Meta], set: u8) -> &Meta
    requires { set < length metas.now }
    ensures { result.now ≡ meta_at metas.now set }
{
    &metas[usize::from(set)]
}

fn writer_at(json: &Json) -> Option<u16>
    ensures { result ≡ writer_at (view json.now) }
{
    let number = json.get("DataSetWriterId")?.as_u64()?;
    u16::try_from(number).ok()
}

fn set_of(sets: &[(u16, u8)], writer: u16) -> Option<u8>
    ensures { result ≡ set_of sets.now writer }
{
    for (named, set) in sets {
        if *named == writer {
            return Some(*set);
        }
    }
    None
}

fn read_frame(meta: &Meta, json: &Json) -> Option<Frame>
    ensures { IsFrameRead meta.now (view json.now) result }
{
    let number = number_at(json, "SequenceNumber")?;
    let kind = read_kind(meta, json)?;
    let versions = versions_at(json);
    Some(Frame {
        number: Some((number % 65536) as u16),
        kind,
        major: major_of(versions),
        minor: minor_of(versions),
    })
}

fn major_of(versions: Option<(u32, u32)>) -> Option<u32>
    ensures { result ≡ option_map (λ v. v.0) versions }
{
    match versions {
        Some((major, _)) => Some(major),
        None => None,
    }
}

fn minor_of(versions: Option<(u32, u32)>) -> Option<u32>
    ensures { result ≡ option_map (λ v. v.1) versions }
{
    match versions {
        Some((_, minor)) => Some(minor),
        None => None,
    }
}

fn versions_at(json: &Json) -> Option<(u32, u32)>
    ensures { result ≡ versions_at (view json.now) }
{
    let versions = json.get("MetaDataVersion")?;
    let major = number_at(versions, "MajorVersion")?;
    let minor = number_at(versions, "MinorVersion")?;
    Some((major, minor))
}

fn read_kind(meta: &Meta, json: &Json) -> Option<FrameKind>
    ensures { IsContentRead meta.now (view json.now) result }
{
    let word = text_at(json, "MessageType")?;
    if word == "ua-keyframe" {
        return read_whole(meta, json);
    }
    if word == "ua-deltaframe" {
        return read_change(meta, json);
    }
    if word == "ua-keepalive" {
        Some(FrameKind::Alive)
    } else {
        None
    }
}

fn read_whole(meta: &Meta, json: &Json) -> Option<FrameKind>
    requires { text_of (codes "MessageType") (view json.now) ≡ Some (codes "ua-keyframe") }
    ensures { IsContentRead meta.now (view json.now) result }
{
    let Some((patch, whole)) = read_payload(meta, json) else {
        return None;
    };
    if whole { Some(whole_of(&patch)) } else { None }
}

fn whole_of(patch: &Patch) -> FrameKind
    ensures { result ≡ FrameKind.Whole patch.now.row }
{
    FrameKind::Whole(patch.row)
}

fn read_change(meta: &Meta, json: &Json) -> Option<FrameKind>
    requires { text_of (codes "MessageType") (view json.now) ≡ Some (codes "ua-deltaframe") }
    ensures { IsContentRead meta.now (view json.now) result }
{
    let Some((patch, _)) = read_payload(meta, json) else {
        return None;
    };
    Some(FrameKind::Change(patch))
}

fn read_payload(meta: &Meta, json: &Json) -> Option<(Patch, bool)>
    ensures { IsPayload meta.now (view json.now) result }
{
    let payload = json.get("Payload")?;
    if payload.is_object() {
        read_fields(meta, payload)
    } else {
        None
    }
}
