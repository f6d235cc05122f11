//! What lines without a fault mean.
ghost use Rattle.std.specs.Prelude.{◌≡◌, ◌≤◌, ◌++◌, [], OnOk, length, unwrap_or};
ghost use Rattle.ps_script.specs.Verbs.{verb_of, fate_of};
ghost use Rattle.ps_script.specs.Answered.{IsActOf, IsWriteOf, MeansLines};
ghost use Rattle.ps_script.specs.Names.{reader_named, set_named};
ghost use Rattle.ps_script.specs.Given.{HasNames};
ghost use Rattle.ps_script.specs.Acts.{fate_by, with_act};
ghost use Rattle.ps_script.specs.declared.verbs.FateWord.TheVariants.{Drop};

use crate::changes::patch_of;
use crate::names::{meta_at, named, set_named};
use crate::numbers::number_at;
use crate::past::Given;
use crate::script::{Act, Line};
use crate::shapes::LAST_DATAGRAM;
use crate::texts::{cut, word};
use crate::verbs::{FateWord, Verb};
use dataset_meta::Meta;
use std::alloc::{AllocError, Global};
use ua_base::Fate;

/// The lines that do something, each with its number.
pub(crate) fn lines_of(
    alloc: Global,
    given: &Given,
    metas: &[Meta],
    bytes: &[u8],
) -> Result<Vec<Line>, AllocError>
    requires names { HasNames given.now }
    requires few { length metas.now ≤ 8 }
    ensures { MeansLines given.now metas.now bytes.now result }
{
    let mut lines = Vec::new(alloc);
    let mut number = 1u32;
    let mut rest = bytes;
    'lines: while !rest.is_empty() {
        let (line, behind) = cut(rest, b'\n');
        add_line(&mut lines, number, act_of(given, metas, line))?;
        number = number.saturating_add(1);
        rest = behind;
    }
    Ok(lines)
}

/// Adds a line that does something.
pub(crate) fn add_line(lines: &mut Vec<Line>, at: u32, act: Option<Act>) -> Result<(), AllocError>
    ensures { OnOk result (lines.new.items ≡ lines.old.items ++ with_act at act []) }
{
    match act {
        Some(act) => {
            lines.push(Line { at, act })?;
            Ok(())
        }
        None => Ok(()),
    }
}

/// What a line does; nothing where it is empty or a comment.
#[tactic(auto, unfolding(crate::specs::Acts::act_of))]
pub(crate) fn act_of(given: &Given, metas: &[Meta], line: &[u8]) -> Option<Act>
    requires names { HasNames given.now }
    requires few { length metas.now ≤ 8 }
    ensures { IsActOf given.now metas.now line.now result }
{
    match Verb::of(line)? {
        Verb::Write => write_of(metas, line),
        Verb::Tick => Some(Act::Tick(number_at(word(line, 1), 1, 3_600_000) as u32)),
        Verb::Enable => Some(Act::Enable(given.component(line) as u8)),
        Verb::Disable => Some(Act::Disable(given.component(line) as u8)),
        Verb::Append => Some(Act::Append {
            set: set_at(metas, word(line, 1)),
        }),
        Verb::Fate => Some(Act::Fated {
            k: number_at(word(line, 1), 0, LAST_DATAGRAM),
            fate: fate_of(line),
        }),
        Verb::Watch => Some(Act::Watch {
            thread: number_at(word(line, 1), 0, 7) as u8,
            reader: reader_at(given, word(line, 2)),
            times: number_at(word(line, 3), 1, 1000) as u32,
        }),
    }
}

fn write_of(metas: &[Meta], line: &[u8]) -> Option<Act>
    requires { length metas.now ≤ 8 }
    ensures { IsWriteOf metas.now line.now result }
{
    let set = set_named(metas, word(line, 2))?;
    let meta = meta_at(metas, set)?;
    Some(Act::Write {
        thread: number_at(word(line, 1), 0, 7) as u8,
        set: set as u8,
        patch: patch_of(meta, line),
    })
}

fn set_at(metas: &[Meta], name: &[u8]) -> u8
    requires { length metas.now ≤ 8 }
    ensures { result ≡ unwrap_or (set_named metas.now name.now) 0 }
{
    match set_named(metas, name) {
        Some(set) => set as u8,
        None => 0,
    }
}

fn reader_at(given: &Given, name: &[u8]) -> u8
    requires { HasNames given.now }
    ensures { result ≡ unwrap_or (reader_named given.now.config.now name.now) 0 }
{
    match named(&given.readers, name) {
        Some(reader) => reader as u8,
        None => 0,
    }
}

fn fate_of(line: &[u8]) -> Fate
    ensures { result ≡ fate_by line.now (unwrap_or (fate_of line.now) Drop) }
{
    match FateWord::of(line) {
        Some(FateWord::Repeat) => Fate::Repeat {
            times: number_at(word(line, 3), 2, 8) as u8,
        },
        Some(FateWord::Hold) => Fate::Hold {
            after: number_at(word(line, 3), 0, LAST_DATAGRAM),
        },
        Some(FateWord::Again) => Fate::Again {
            after: number_at(word(line, 3), 0, LAST_DATAGRAM),
        },
        Some(FateWord::Drop) | None => Fate::Drop,
    }
}
