//! Messages of the first data set of a configuration: a key frame of its opening row.
ghost use Rattle.std.specs.Prelude.{◌≡◌, ◌<◌, length, IfOk, All, IsSome};
ghost use Rattle.frame_codec.specs.Words.{IsFrameOf};
ghost use Rattle.json_frames.specs.Parts.{IsPartOf, meta_at};

use bench_base::Unmeasured;
use dataset_meta::Meta;
use frame_codec::{Frame, FrameKind};
use json_frames::{JsonMessage, JsonPart, JsonParts, read_json, write_json};
use ps_config::read_config;
use row_words::Row;
use std::alloc::Global;
use ua_values::Text;

/// Writes a message of the configuration's first data set `turns` times, and once more into the bytes; answers its length, 0 where
/// nothing is measured.
#[unsafe(no_mangle)]
pub extern "C" fn bench_json_write(
    alloc: Global,
    turns: u32,
    config: &[u8],
    bytes: &mut [u8],
) -> usize {
    written(alloc, turns, config, bytes).unwrap_or(0)
}

/// Reads a message of the configuration's first data set `turns` times; answers how many parts were read, 0 where nothing is measured.
#[unsafe(no_mangle)]
pub extern "C" fn bench_json_read(alloc: Global, turns: u32, config: &[u8], line: &[u8]) -> usize {
    read(alloc, turns, config, line).unwrap_or(0)
}

fn written(
    alloc: Global,
    turns: u32,
    config: &[u8],
    bytes: &mut [u8],
) -> Result<usize, Unmeasured> {
    let Ok(config) = read_config(alloc, config) else {
        return Err(Unmeasured);
    };
    let metas = config.dataset.as_slice();
    if metas.is_empty() {
        return Err(Unmeasured);
    }
    let message = message_of(alloc, metas)?;
    for _ in 0..turns {
        let _ = write_json(alloc, metas, &message)?;
    }
    let text = write_json(alloc, metas, &message)?;
    if text.len() > bytes.len() {
        return Err(Unmeasured);
    }
    bytes[..text.len()].copy_from_slice(&text);
    Ok(text.len())
}

fn read(alloc: Global, turns: u32, config: &[u8], line: &[u8]) -> Result<usize, Unmeasured> {
    let Ok(config) = read_config(alloc, config) else {
        return Err(Unmeasured);
    };
    let metas = config.dataset.as_slice();
    if metas.is_empty() {
        return Err(Unmeasured);
    }
    let mut parts: usize = 0;
    for _ in 0..turns {
        let Ok(found) = read_json(alloc, metas, &[(1, 0)], line) else {
            return Err(Unmeasured);
        };
        parts = parts.saturating_add(found.parts.as_slice().len());
    }
    Ok(parts)
}

/// A message of one key frame.
fn message_of(alloc: Global, metas: &[Meta]) -> Result<JsonMessage, Unmeasured>
    requires { 0 < length metas.now }
    ensures { IfOk result (λ message. All (IsPartOf metas.now) message.parts) }
{
    let Ok(publisher) = Text::from_bytes(b"5") else {
        return Err(Unmeasured);
    };
    let mut parts = Vec::new(alloc);
    parts.push(JsonPart {
        writer: 1,
        set: 0,
        frame: frame_of(&metas[0]),
    })?;
    Ok(JsonMessage {
        id: 0,
        publisher,
        parts: JsonParts::new(parts),
    })
}

fn frame_of(meta: &Meta) -> Frame
    ensures frame { IsFrameOf meta.now result }
    ensures numbered { IsSome result.number }
    ensures bare_major { result.major ≡ None }
    ensures bare_minor { result.minor ≡ None }
{
    let _fields = meta.fields();
    Frame {
        number: Some(65535),
        kind: FrameKind::Whole(Row::opening()),
        major: None,
        minor: None,
    }
}
