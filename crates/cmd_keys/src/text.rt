//! What is written of what passed between a key service and a puller.
ghost use Rattle.std.specs.Prelude.{◌≡◌, ◌++◌, false, IfOk, OnOk, Ok};
ghost use Rattle.ps_config.specs.Sound.{IsSound};
ghost use Rattle.cmd_keys.specs.Ends.{TellsAnswer, TellsExchange};
ghost use Rattle.cmd_keys.specs.Texts.{exchange_lines, exchange_text, key_line, key_lines, refused_text, trial_lines};
ghost use Rattle.cmd_keys.specs.Trials.{has_opened};

use crate::answering::exchange;
use crate::protecting::ZEROS;
use crate::put::{put_key, put_policy};
use crate::refusal::Refusal;
use crate::trial::{Exchange, Refused, Trial};
use crate::words::Asked;
use group_keys::KeySet;
use ps_config::Config;
use ps_report::{put, put_end, put_feed};
use std::alloc::Global;
use ua_base::NoMemory;

/// The lines that tell what is answered of the configuration, by what a puller made of it.
pub(crate) fn answer_text(
    alloc: Global,
    config: &Config,
    asked: &Asked,
) -> Result<Vec<u8>, NoMemory>
    requires { IsSound config.now }
    ensures exchange { IfOk result (λ text. TellsExchange config.now asked.now text.items) }
    ensures answer { IfOk result (λ text. TellsAnswer config.now asked.now text.items) }
{
    exchange_text(alloc, exchange(config, asked))
}

/// The lines of what passed, and of nothing else.
fn exchange_text(alloc: Global, made: Result<Exchange, Refused>) -> Result<Vec<u8>, NoMemory>
    ensures { IfOk result (λ text. text.items ≡ exchange_text made) }
{
    match made {
        Ok(made) => made_text(alloc, &made),
        Err(refused) => refused_text(alloc, refused.refusal),
    }
}

fn refused_text(alloc: Global, refusal: Refusal) -> Result<Vec<u8>, NoMemory>
    ensures { IfOk result (λ text. text.items ≡ refused_text refusal) }
{
    let mut out = Vec::new(alloc);
    put(&mut out, b"refused ")?;
    put(&mut out, refusal.name().as_bytes())?;
    put_feed(&mut out)?;
    put_end(&mut out)?;
    Ok(out)
}

fn made_text(alloc: Global, made: &Exchange) -> Result<Vec<u8>, NoMemory>
    ensures { IfOk result (λ text. text.items ≡ exchange_text (Ok made.now)) }
{
    let mut out = Vec::new(alloc);
    put_policy(&mut out, &made.read)?;
    put_made(&mut out, made)?;
    put_end(&mut out)?;
    Ok(out)
}

/// A line for each key: as it was tried, or, where none was, as it was read.
fn put_made(out: &mut Vec<u8>, made: &Exchange) -> Result<(), NoMemory>
    ensures { OnOk result (out.new.items
        ≡ out.old.items ++ exchange_lines made.now made.now.trials) }
{
    match &made.trials {
        Some(trials) => put_trials(out, trials.as_slice()),
        None => put_keys(out, made.read.keys.as_slice()),
    }
}

fn put_trials(out: &mut Vec<u8>, trials: &[Trial]) -> Result<(), NoMemory>
    ensures { OnOk result (out.new.items ≡ out.old.items ++ trial_lines trials.now) }
{
    for trial in trials {
        put_trial(out, trial)?;
    }
    Ok(())
}

fn put_trial(out: &mut Vec<u8>, trial: &Trial) -> Result<(), NoMemory>
    ensures { OnOk result (out.new.items
        ≡ out.old.items ++ key_line (has_opened trial.now) trial.now.token) }
{
    put_key(out, trial.token, has_opened(trial))
}

/// Whether the guard found four zero bytes.
fn has_opened(trial: &Trial) -> bool
    ensures { result ≡ has_opened trial.now }
{
    match &trial.found {
        Some(found) => found.as_slice() == &ZEROS[..],
        None => false,
    }
}

fn put_keys(out: &mut Vec<u8>, sets: &[KeySet]) -> Result<(), NoMemory>
    ensures { OnOk result (out.new.items ≡ out.old.items ++ key_lines false sets.now) }
{
    for set in sets {
        put_key(out, set.token, false)?;
    }
    Ok(())
}
