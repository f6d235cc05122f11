//! Reading the lines back.
ghost use Rattle.std.specs.Prelude.{◌≡◌, IfOk, IsOk, OnOk, All};
ghost use Rattle.ps_config.specs.Sound.{IsSound};
ghost use Rattle.json_frames.specs.Documents.{document};
ghost use Rattle.json_frames.specs.Parts.{IsPartOf, parts_in};
ghost use Rattle.json_frames.specs.Reading.{HavePlaces};
ghost use Rattle.json_tap.specs.Transcoding.{sets_of};
ghost use Rattle.json_text.specs.Reading.{ReadsLines};
ghost use Rattle.json_text.specs.Parts.{AddsLine};

use crate::sets::sets_of;
use json_frames::{JsonEnd, JsonPart, read_json};
use json_tap::JsonLine;
use ps_config::Config;
use std::alloc::Global;
use ua_base::NoMemory;

/// The parts of the lines, in their order.
pub(crate) fn parts_of(
    alloc: Global,
    config: &Config,
    lines: &[JsonLine],
) -> Result<Vec<JsonPart>, NoMemory>
    requires { IsSound config.now }
    ensures read { IfOk result (λ parts. ReadsLines config.now lines.now
        (parts_in config.now.dataset parts.items)) }
    ensures writable { IfOk result (λ parts. All (IsPartOf config.now.dataset) parts.items) }
{
    let sets = sets_of(alloc, config)?;
    let mut parts = Vec::new(alloc);
    for line in lines {
        read_line(alloc, config, &sets, line.as_bytes(), &mut parts)?;
    }
    Ok(parts)
}

/// Puts the parts of a line after those so far.
fn read_line(
    alloc: Global,
    config: &Config,
    sets: &[(u16, u8)],
    line: &[u8],
    parts: &mut Vec<JsonPart>,
) -> Result<(), NoMemory>
    requires sets { sets.now ≡ sets_of config.now }
    requires places { HavePlaces config.now.dataset sets.now }
    requires accepted { IsOk (document line.now) }
    ensures { OnOk result (AddsLine config.now line.now parts.old.items parts.new.items) }
{
    match read_json(alloc, config.dataset.as_slice(), sets, line) {
        Ok(read) => {
            parts.extend_from_slice(read.parts.as_slice())?;
            Ok(())
        }
        Err(JsonEnd::Memory) => Err(NoMemory),
        Err(JsonEnd::NotJson | JsonEnd::NotData | JsonEnd::BadPublisher | JsonEnd::NoMessages) =>
            unreachable!(),
    }
}
