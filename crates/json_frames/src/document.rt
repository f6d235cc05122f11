//! Reading messages.
ghost use Rattle.std.specs.Prelude.{◌≡◌, option_map, IfOk, IfErr};
ghost use Rattle.serde_json.specs.View.{view, items_view};
ghost use Rattle.json_frames.specs.Reading.{HavePlaces};
ghost use Rattle.json_frames.specs.Documents.{is_data, publisher_in, messages_in, Gives};
ghost use Rattle.json_frames.specs.Calls.{Parses, IsPartsRead};

use crate::json_end::JsonEnd;
use crate::message::{JsonPart, JsonRead};
use crate::parts::JsonParts;
use crate::reading::{Element, read_element};
use dataset_meta::Meta;
use json_values::text_at;
use serde_json::Value as Json;
use std::alloc::Global;
use ua_values::Text;

/// What is read of a message (OPC 10000-14 section 7.2.5), or the first thing that refuses it. `sets`
/// names for each writer the place of its data set's meta, which stands among `metas`; of two pairs with
/// one writer the first counts. An element of another writer is skipped, one that gives no frame is
/// counted, and members that aren't named in the standard's mapping are ignored.
#[tactic(auto, unfolding(crate::specs::Documents::judged))]
pub fn read_json(
    alloc: Global,
    metas: &[Meta],
    sets: &[(u16, u8)],
    bytes: &[u8],
) -> Result<JsonRead, JsonEnd>
    requires { HavePlaces metas.now sets.now }
    ensures { Gives metas.now sets.now bytes.now result }
{
    let document = parsed(alloc, bytes)?;
    if !is_data(&document) {
        return Err(JsonEnd::NotData);
    }
    let Some(publisher) = publisher_in(&document) else {
        return Err(JsonEnd::BadPublisher);
    };
    let Some(messages) = messages_in(&document) else {
        return Err(JsonEnd::NoMessages);
    };
    let (parts, bad) = read_parts(alloc, metas, sets, messages)?;
    Ok(JsonRead {
        publisher,
        parts: JsonParts::new(parts),
        bad,
    })
}

/// The JSON value of the bytes.
fn parsed(alloc: Global, bytes: &[u8]) -> Result<Json, JsonEnd>
    ensures { Parses bytes.now result }
{
    match Json::from_slice(alloc, bytes) {
        Ok(json) => Ok(json),
        Err(error) => {
            if error.is_memory() {
                Err(JsonEnd::Memory)
            } else {
                Err(JsonEnd::NotJson)
            }
        }
    }
}

/// Whether the value is an object whose type is that of data.
fn is_data(json: &Json) -> bool
    ensures { result ≡ is_data (view json.now) }
{
    match text_at(json, "MessageType") {
        Some(word) => word == "ua-data",
        None => false,
    }
}

/// The publisher, where it is a text of at most 256 bytes.
fn publisher_in(json: &Json) -> Option<Text>
    ensures { result ≡ publisher_in (view json.now) }
{
    let text = text_at(json, "PublisherId")?;
    match Text::from_bytes(text.as_bytes()) {
        Ok(text) => Some(text),
        Err(_) => None,
    }
}

/// The elements of the messages, where there is an array of them.
fn messages_in(json: &Json) -> Option<&[Json]>
    ensures { option_map (λ items. items_view items.now) result ≡ messages_in (view json.now) }
{
    let messages = json.get("Messages")?;
    let array = messages.as_array()?;
    Some(array)
}

/// The parts that the elements give, and how many give none.
fn read_parts(
    alloc: Global,
    metas: &[Meta],
    sets: &[(u16, u8)],
    messages: &[Json],
) -> Result<(Vec<JsonPart>, u32), JsonEnd>
    requires { HavePlaces metas.now sets.now }
    ensures ok { IfOk result (λ found. IsPartsRead metas.now sets.now (items_view messages.now)
        found.0.items found.1) }
    ensures err { IfErr result (λ end. end ≡ JsonEnd.Memory) }
{
    let mut parts = Vec::new(alloc);
    let mut bad = 0u32;
    for json in messages {
        match read_element(metas, sets, json) {
            Element::Other => {}
            Element::Gives(part) => parts.push(part)?,
            Element::Bad => bad = bad.saturating_add(1),
        }
    }
    Ok((parts, bad))
}
