//! Lines that give a data set one field more.
ghost use Rattle.std.specs.Prelude.{◌≡◌, ◌==◌, ◌<◌, ◌∷◌, ◌++◌, ◌&&◌, ◌||◌, not, [], true, false, length, Bool, Some, None, IfOk, IsTrue, nat_le, MatchOption};
ghost use Rattle.std.specs.List.{list_any};
ghost use Rattle.dataset_meta.specs.Names.{is_name};
ghost use Rattle.ps_config.specs.Rooms.{is_fixed, lacks_room};
ghost use Rattle.ps_script.specs.declared.verbs.Verb.TheVariants as verbs;
ghost use Rattle.ps_script.specs.Texts.{word};
ghost use Rattle.ps_script.specs.Past.{done_by, field_of, done_with};
ghost use Rattle.ps_script.specs.Faults.{is_meta, has_mute_writer, is_bad_append, IsGrowth, Appends};

use crate::names::{kind_spelled, set_named};
use crate::numbers::number_at;
use crate::past::Past;
use crate::texts::word;
use dataset_meta::{Field, Meta, Name32};
use ps_config::{Config, GroupPart, Layout, lacks_room};
use std::alloc::{AllocError, Global};
use ua_values::Kind;

/// Gives the data set that the line names one field more, unless it can't have it. The answer is
/// whether it can't.
#[tactic(auto, using(crate::proofs::Growth::growth_unfit, crate::proofs::Growth::growth_fit, crate::proofs::Growth::growth_unknown, crate::proofs::Growth::done_some, crate::proofs::Growth::done_none))]
pub(crate) fn append(
    alloc: Global,
    config: &Config,
    past: &mut Past,
    line: &[u8],
) -> Result<bool, AllocError>
    requires { past.old.appends < 16 }
    ensures appends { IfOk result
        (Appends config.now (done_by past.old) (done_by past.new) line.now) }
    ensures kept { length past.new.metas.items ≡ length past.old.metas.items }
{
    past.appends += 1;
    let Some(set) = set_named(&past.metas, word(line, 1)) else {
        return Ok(false);
    };
    let Some(meta) = grown(alloc, &past.metas[set], line)? else {
        return Ok(true);
    };
    past.metas[set] = meta;
    Ok(has_mute_writer(config, set) || is_room_lacking(config, &past.metas))
}

/// The data set with the line's field, and a minor version that is one higher. None where the line
/// has no name, the fields make no meta, or the minor version is its type's last.
#[tactic(auto, unfolding(crate::specs::Past::field_of))]
fn grown(alloc: Global, meta: &Meta, line: &[u8]) -> Result<Option<Meta>, AllocError>
    ensures { IfOk result (IsGrowth meta.now line.now) }
{
    let Some(name) = Name32::new(word(line, 2)) else {
        return Ok(None);
    };
    let field = Field {
        name,
        kind: kind_spelled(word(line, 3)).unwrap_or(Kind::Boolean),
        cap: number_at(word(line, 4), 1, 256) as u16,
    };
    meta.grown(alloc, field)
}

/// Some writer of the data set can't tell of a new field.
fn has_mute_writer(config: &Config, set: usize) -> bool
    ensures { result ≡ list_any (has_mute_writer set) config.now.group }
{
    is_any_mute(config.group.as_slice(), set)
}

fn is_any_mute(groups: &[GroupPart], set: usize) -> bool
    ensures { result ≡ list_any (has_mute_writer set) groups.now }
{
    groups.iter().any(|group| is_mute(group, set))
}

fn is_mute(group: &GroupPart, set: usize) -> bool
    ensures { result ≡ has_mute_writer set group.now }
{
    let is_fixed = matches!(group.layout, Layout::Fixed);
    group.writer.as_slice().iter().any(|writer| usize::from(writer.dataset) == set
        && (!writer.versions || is_fixed))
}

/// Some group lacks room for the frames of these data sets.
fn is_room_lacking(config: &Config, metas: &[Meta]) -> bool
    ensures { result ≡ list_any (lacks_room config.now.publisher.id metas.now) config.now.group }
{
    is_any_lacking(config, metas, config.group.as_slice())
}

fn is_any_lacking(config: &Config, metas: &[Meta], groups: &[GroupPart]) -> bool
    ensures { result ≡ list_any (lacks_room config.now.publisher.id metas.now) groups.now }
{
    groups
        .iter()
        .any(|group| lacks_room(&config.publisher.id, metas, group))
}
