//! The faults of a line that need what the lines before it have done.
ghost use Rattle.std.specs.Prelude.{◌≡◌, ◌==◌, option_copied};
ghost use Rattle.std.specs.List.{list_any};
ghost use Rattle.ps_script.specs.Verbs.{verb_of, fate_of};
ghost use Rattle.ps_script.specs.Answered.{IsBadWrite};
ghost use Rattle.ps_script.specs.Values.{ValueReader};
ghost use Rattle.ps_script.specs.Past.{done_by};
ghost use Rattle.ps_script.specs.Given.{HasNames};
ghost use Rattle.ps_script.specs.Faults.{has_name, has_unknown_name, meta_named, is_bad_field, is_bad_value, is_on, is_bad_state, is_past_limit, is_early, is_bad_fate};

use crate::changes::{has_bad_field, has_bad_value};
use crate::names::{kind_spelled, named, set_named};
use crate::numbers::number_at;
use crate::past::{Given, Past};
use crate::shapes::LAST_DATAGRAM;
use crate::texts::word;
use crate::verbs::{FateWord, Verb};
use dataset_meta::Meta;

/// How many lines of a kind a script may have.
const MOST_TICKS: u32 = 4096;

pub(crate) const MOST_WRITES: u32 = 32_768;

const MOST_FATES: usize = 256;

const MOST_WATCHES: u32 = 64;

const MOST_APPENDS: u32 = 16;

/// How many lines of all these kinds.
pub(crate) const MOST_LINES: usize = (MOST_TICKS
    + MOST_WRITES
    + MOST_WATCHES
    + MOST_APPENDS) as usize
    + MOST_FATES;

/// A data set, a reader or a component that isn't there.
pub(crate) fn has_unknown_name(given: &Given, past: &Past, line: &[u8], verb: Option<Verb>) -> bool
    requires names { HasNames given.now }
    requires verb { verb ≡ verb_of line.now }
    ensures { result ≡ has_unknown_name given.now.config.now (done_by past.now) line.now }
{
    match verb {
        Some(verb) => !has_name(given, past, line, verb),
        None => false,
    }
}

fn has_name(given: &Given, past: &Past, line: &[u8], verb: Verb) -> bool
    requires { HasNames given.now }
    ensures { result ≡ has_name given.now.config.now (done_by past.now) line.now verb }
{
    match verb {
        Verb::Write => set_named(&past.metas, word(line, 2)).is_some(),
        Verb::Append => set_named(&past.metas, word(line, 1)).is_some(),
        Verb::Enable | Verb::Disable => named(&given.components, word(line, 1)).is_some(),
        Verb::Watch => named(&given.readers, word(line, 2)).is_some(),
        Verb::Tick | Verb::Fate => true,
    }
}

fn meta_named<'a>(metas: &'a [Meta], name: &[u8]) -> Option<&'a Meta>
    ensures { option_copied result ≡ meta_named metas.now name.now }
{
    match set_named(metas, name) {
        Some(set) => metas.get(set),
        None => None,
    }
}

/// A field that the data set doesn't have by then, or one twice.
pub(crate) fn is_bad_field(past: &Past, line: &[u8], verb: Option<Verb>) -> bool
    ensures { result ≡ is_bad_field (done_by past.now) line.now verb }
{
    match verb {
        Some(Verb::Write) => match meta_named(&past.metas, word(line, 2)) {
            Some(meta) => has_bad_field(meta, line),
            None => false,
        },
        _ => false,
    }
}

/// A text that is no value of its field, or no status of its data set; a kind that is none.
pub(crate) fn is_bad_value(past: &Past, line: &[u8], verb: Option<Verb>) -> bool
    ensures { (reader : ValueReader)
        → result ≡ is_bad_value reader (done_by past.now) line.now verb }
{
    match verb {
        Some(Verb::Write) => has_bad_write(past, line),
        Some(Verb::Append) => kind_spelled(word(line, 3)).is_none(),
        _ => false,
    }
}

/// A field word of a line `write` gives its field no value or no status.
fn has_bad_write(past: &Past, line: &[u8]) -> bool
    ensures { IsBadWrite past.now line.now result }
{
    match meta_named(&past.metas, word(line, 2)) {
        Some(meta) => has_bad_value(meta, line),
        None => false,
    }
}

/// A component is enabled that is, or disabled that isn't.
pub(crate) fn is_bad_state(given: &Given, past: &Past, line: &[u8], verb: Option<Verb>) -> bool
    requires { HasNames given.now }
    ensures { result
        ≡ is_bad_state given.now.config.now (done_by past.now) line.now verb }
{
    match verb {
        Some(Verb::Enable) => past.enabled[given.component(line)],
        Some(Verb::Disable) => !past.enabled[given.component(line)],
        _ => false,
    }
}

/// One line of its kind more than are allowed.
pub(crate) fn is_past_limit(past: &Past, verb: Option<Verb>) -> bool
    ensures { result ≡ is_past_limit (done_by past.now) verb }
{
    match verb {
        Some(Verb::Tick) => MOST_TICKS <= past.ticks,
        Some(Verb::Write) => MOST_WRITES <= past.writes,
        Some(Verb::Fate) => MOST_FATES <= past.fated.len(),
        Some(Verb::Watch) => MOST_WATCHES <= past.watches,
        Some(Verb::Append) => MOST_APPENDS <= past.appends,
        _ => false,
    }
}

/// A second fate of a datagram, one until no later datagram, or any where links have none.
pub(crate) fn is_bad_fate(given: &Given, past: &Past, line: &[u8], verb: Option<Verb>) -> bool
    ensures { result
        ≡ is_bad_fate given.now.takes_fates (done_by past.now) line.now verb }
{
    match verb {
        Some(Verb::Fate) => {
            !given.takes_fates
                || has_fate(&past.fated, number_at(word(line, 1), 0, LAST_DATAGRAM))
                || is_early(line, FateWord::of(line))
        }
        _ => false,
    }
}

fn has_fate(fated: &[u64], number: u64) -> bool
    ensures { result ≡ list_any (λ other. other == number) fated.now }
{
    fated.iter().any(|other| *other == number)
}

fn is_early(line: &[u8], fate: Option<FateWord>) -> bool
    ensures { result ≡ is_early line.now fate }
{
    match fate {
        Some(FateWord::Hold | FateWord::Again) => {
            number_at(word(line, 3), 0, LAST_DATAGRAM) <= number_at(word(line, 1), 0, LAST_DATAGRAM)
        }
        _ => false,
    }
}
