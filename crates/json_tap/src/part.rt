//! The frame of a writer of the configuration.
ghost use Rattle.std.specs.Prelude.{◌≡◌, map};
ghost use Rattle.frame_codec.specs.Reading.{frame_at};
ghost use Rattle.json_frames.specs.Reading.{set_of};
ghost use Rattle.json_tap.specs.Transcoding.{sets_of, has_numbers, are_paired, frame_if, part_for, part_of};
ghost use Rattle.json_tap.specs.Parts.{IsFrameIf, IsPartIf};

use dataset_meta::Meta;
use frame_codec::{Frame, read_frame};
use json_frames::JsonPart;
use ps_config::{Config, WriterPart};

/// The bytes of a writer as a frame of its data set, where they are one with a number and with both versions or neither.
pub fn part_of(config: &Config, writer: u16, bytes: &[u8]) -> Option<JsonPart>
    ensures { IsPartIf config.now result (part_of config.now (writer, bytes.now)) }
{
    let Some(set) = set_of(config, writer) else {
        return None;
    };
    part_for(config, writer, set, bytes)
}

fn part_for(config: &Config, writer: u16, set: u8, bytes: &[u8]) -> Option<JsonPart>
    ensures { IsPartIf config.now result (part_for config.now writer bytes.now set) }
{
    let Some(meta) = config.dataset.as_slice().get(usize::from(set)) else {
        return None;
    };
    match frame_of(meta, bytes) {
        Some(frame) => Some(JsonPart { writer, set, frame }),
        None => None,
    }
}

fn frame_of(meta: &Meta, bytes: &[u8]) -> Option<Frame>
    ensures { IsFrameIf meta.now result (frame_if (frame_at meta.now bytes.now)) }
{
    match read_frame(meta, bytes) {
        Ok(frame) => {
            if is_spelled(&frame) {
                Some(frame)
            } else {
                None
            }
        }
        Err(_) => None,
    }
}

fn is_spelled(frame: &Frame) -> bool
    ensures { result ≡ has_numbers frame.now.number frame.now.major frame.now.minor }
{
    frame.number.is_some() && are_paired(frame.major, frame.minor)
}

fn are_paired(major: Option<u32>, minor: Option<u32>) -> bool
    ensures { result ≡ are_paired major minor }
{
    match (major, minor) {
        (Some(_), Some(_)) | (None, None) => true,
        _ => false,
    }
}

/// The data set of a writer.
fn set_of(config: &Config, writer: u16) -> Option<u8>
    ensures { result ≡ set_of (sets_of config.now) writer }
{
    for group in config.group.as_slice() {
        match set_in(group.writer.as_slice(), writer) {
            Some(set) => return Some(set),
            None => {}
        }
    }
    None
}

fn set_in(writers: &[WriterPart], id: u16) -> Option<u8>
    ensures { result ≡ set_of (map (λ writer. (writer.id, writer.dataset)) writers.now) id }
{
    for writer in writers {
        if writer.id == id {
            return Some(writer.dataset);
        }
    }
    None
}
