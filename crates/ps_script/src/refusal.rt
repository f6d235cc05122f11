//! What refuses a line, and what a line does that isn't refused.
ghost use Rattle.std.specs.Prelude.{◌≡◌, ◌≢◌, ◌<◌, ◌≤◌, false, length, Some, None, IfOk, IfNone};
ghost use Rattle.ps_script.specs.declared.fault.ScriptFault.TheVariants.{BadAppend};
ghost use Rattle.ps_script.specs.Verbs.{verb_of};
ghost use Rattle.ps_script.specs.Answered.{IsEarlyFault, StepsBy, TellsFault};
ghost use Rattle.ps_script.specs.Past.{done_by, after};
ghost use Rattle.ps_script.specs.Faults.{is_past_limit};
ghost use Rattle.ps_script.specs.Given.{HasNames};
ghost use Rattle.ps_script.specs.Refusals.{early_faults};
ghost use Rattle.ps_script.specs.Scripts.{Passes};

use crate::appends::append;
use crate::fault::ScriptFault;
use crate::faults::{
    has_unknown_name, is_bad_fate, is_bad_field, is_bad_state, is_bad_value, is_past_limit,
};
use crate::past::{Given, Past};
use crate::shapes::{has_bad_number, has_unknown_word, is_bad_shape, is_bad_text, is_long};
use crate::verbs::Verb;
use std::alloc::{AllocError, Global};

// The faults in the order in which they are judged, up to the last.
const FAULTS: [ScriptFault; 11] = [
    ScriptFault::BadText,
    ScriptFault::LongLine,
    ScriptFault::UnknownWord,
    ScriptFault::BadShape,
    ScriptFault::BadNumber,
    ScriptFault::UnknownName,
    ScriptFault::BadField,
    ScriptFault::BadValue,
    ScriptFault::BadState,
    ScriptFault::TooMany,
    ScriptFault::BadFate,
];

/// Does what a line does, unless it has a fault; then the first of its faults is the answer.
#[tactic(auto, using(crate::proofs::Finding::early_is_told, crate::proofs::Finding::passed))]
pub(crate) fn step(
    alloc: Global,
    given: &Given,
    past: &mut Past,
    line: &[u8],
) -> Result<Option<ScriptFault>, AllocError>
    requires { HasNames given.now }
    ensures kept { length past.new.metas.items ≡ length past.old.metas.items }
    ensures steps { StepsBy given.now past.old past.new line.now result }
{
    let verb = Verb::of(line);
    match early_fault(given, past, line, verb) {
        Some(fault) => Ok(Some(fault)),
        None => {
            // It was judged, as one of the early faults: this is for the count alone.
            if is_past_limit(past, verb) {
                return Ok(Some(ScriptFault::TooMany));
            }
            pass(alloc, given, past, line, verb)
        }
    }
}

/// Does what a line does that has none of the early faults, unless it has the last.
#[tactic(auto, unfolding(crate::specs::Past::after))]
fn pass(
    alloc: Global,
    given: &Given,
    past: &mut Past,
    line: &[u8],
    verb: Option<Verb>,
) -> Result<Option<ScriptFault>, AllocError>
    requires names { HasNames given.now }
    requires verb { verb ≡ verb_of line.now }
    requires few { is_past_limit (done_by past.old) verb ≡ false }
    ensures kept { length past.new.metas.items ≡ length past.old.metas.items }
    ensures passes { IfOk result
        (Passes given.now.config.now (done_by past.old) (done_by past.new) line.now) }
{
    match verb {
        Some(Verb::Append) => {
            if append(alloc, given.config, past, line)? {
                Ok(Some(ScriptFault::BadAppend))
            } else {
                Ok(None)
            }
        }
        verb => {
            past.pass(given, verb, line)?;
            Ok(None)
        }
    }
}

/// The first of the faults that stands at the line, but for the last.
#[tactic(auto, using(crate::proofs::Finding::first_next, crate::proofs::Finding::first_here))]
fn early_fault(given: &Given, past: &Past, line: &[u8], verb: Option<Verb>) -> Option<ScriptFault>
    requires names { HasNames given.now }
    requires verb { verb ≡ verb_of line.now }
    ensures { IsEarlyFault given.now past.now line.now result }
{
    for fault in early_faults() {
        if stands(*fault, given, past, line, verb) {
            return Some(*fault);
        }
    }
    None
}

#[tactic(auto, unfolding(crate::specs::Refusals::early_faults))]
fn early_faults() -> &'static [ScriptFault]
    ensures { result.now ≡ early_faults }
{
    &FAULTS
}

/// The fault stands at the line.
#[tactic(auto, unfolding(crate::specs::Refusals::stands))]
fn stands(fault: ScriptFault, given: &Given, past: &Past, line: &[u8], verb: Option<Verb>) -> bool
    requires names { HasNames given.now }
    requires verb { verb ≡ verb_of line.now }
    requires early { fault ≢ BadAppend }
    ensures { TellsFault fault given.now past.now line.now result }
{
    match fault {
        ScriptFault::BadText => is_bad_text(line),
        ScriptFault::LongLine => is_long(line),
        ScriptFault::UnknownWord => has_unknown_word(line, verb),
        ScriptFault::BadShape => is_bad_shape(line, verb),
        ScriptFault::BadNumber => has_bad_number(line, verb),
        ScriptFault::UnknownName => has_unknown_name(given, past, line, verb),
        ScriptFault::BadField => is_bad_field(past, line, verb),
        ScriptFault::BadValue => is_bad_value(past, line, verb),
        ScriptFault::BadState => is_bad_state(given, past, line, verb),
        ScriptFault::TooMany => is_past_limit(past, verb),
        ScriptFault::BadFate => is_bad_fate(given, past, line, verb),
        ScriptFault::BadAppend => unreachable!(),
    }
}
