//! Answers as text.
ghost use Rattle.std.specs.Prelude.{◌≡◌, ◌<◌, IfOk, length};
ghost use Rattle.dataset_reader.specs.Reader.{IsReaderOf};
ghost use Rattle.row_words.specs.Belonging.{Belongs};

use case_lines::{Answer, Digits, LineFault, Tally, Told, string_of};
use dataset_meta::Meta;
use dataset_reader::{Reader, Why};
use reader_group::{Refusal, Taken};
use row_words::Row;
use std::alloc::Global;
use ua_values::Value;
use value_texts::{status_text, value_text};

/// How many parts a datagram had, how many were given to readers, and how many of these were bad; or why it is refused.
pub fn receipt_text(alloc: Global, receipt: &Result<Taken, Refusal>) -> Result<String, LineFault> {
    let mut told = Told::new(alloc);
    match receipt {
        Ok(taken) => {
            let (parts, matched) = (taken.parts as u64, taken.matched as u64);
            told.fill("taken # # #", &[parts, matched, taken.bad as u64]);
        }
        Err(refusal) => told.name(refusal),
    }
    told.text()
}

/// Counts an answer: as `taken` where no part was bad, as `bad` where one was, else as the refusal without what it tells in braces.
pub fn count(alloc: Global, tally: &mut Tally, answer: &str) -> Result<(), LineFault> {
    let Some((word, told)) = answer.split_once(' ') else {
        tally.add(alloc, answer, answer)?;
        return Ok(());
    };
    if word != "taken" {
        let mut name = String::from_str(alloc, word)?;
        name.push(')')?;
        tally.add(alloc, name.as_str(), answer)?;
        return Ok(());
    }
    let name = if told.ends_with(" 0") { "taken" } else { "bad" };
    tally.add(alloc, name, answer)?;
    Ok(())
}

/// What a reader holds, or why it waits, and its breaks.
pub fn tell_reader(told: &mut Told, meta: &Meta, reader: &Reader) -> Result<(), LineFault>
    requires { IsReaderOf meta.now reader.now }
{
    tell_held(told, meta, reader)?;
    told.fill("; gaps #", &[reader.breaks() as u64]);
    for gap in reader.recent() {
        told.fill(" #/#", &[gap.expected as u64, gap.got as u64]);
    }
    Ok(())
}

fn tell_held(told: &mut Told, meta: &Meta, reader: &Reader) -> Result<(), LineFault>
    requires { IsReaderOf meta.now reader.now }
{
    let Some(row) = reader.row() else {
        told.say(waiting(reader.why()));
        return Ok(());
    };
    match reader.number() {
        Some(number) => told.fill("holds #:", &[number as u64]),
        None => told.say("holds -:"),
    }
    for index in 0..meta.fields().len() as u8 {
        tell_field(told, meta, row, index)?;
    }
    Ok(())
}

/// The text of a field, and its status in front of it where that isn't 0.
fn tell_field(told: &mut Told, meta: &Meta, row: &Row, index: u8) -> Result<(), LineFault>
    requires belongs { Belongs meta.now row.now.words }
    requires index { index < length meta.now.fields }
{
    let status = row.status(meta, index);
    let value = row.field(meta, index);
    told.say(" ");
    tell_value(told, &value, status)
}

fn tell_value(told: &mut Told, value: &Value, status: u32) -> Result<(), LineFault> {
    let mut text = Vec::new(told.alloc());
    if status != 0 {
        text.push(b'!')?;
        status_text(status, &mut text)?;
        text.push(b'=')?;
    }
    value_text(value, &mut text)?;
    told.say(string_of(text)?.as_str());
    Ok(())
}

fn waiting(why: Why) -> &'static str {
    match why {
        Why::Start => "waits start",
        Why::Gap => "waits gap",
        Why::Timeout => "waits timeout",
        Why::NewToken => "waits newtoken",
        Why::Jump => "waits jump",
        Why::Restarted => "waits restarted",
    }
}

/// How many datagrams a turn made, and they, or their lengths.
pub fn made_text(alloc: Global, made: &[Vec<u8>], is_whole: bool) -> Answer {
    let mut told = Told::new(alloc);
    told.fill("made #", &[made.len() as u64]);
    for datagram in made {
        if is_whole {
            told.named(" ", Some(Digits(datagram)));
        } else {
            told.fill(" #", &[datagram.len() as u64]);
        }
    }
    told.answer()
}

pub fn version_text(alloc: Global, version: u64) -> Answer {
    let mut told = Told::new(alloc);
    told.fill("version #", &[version]);
    told.answer()
}

pub fn copied(alloc: Global, bytes: &[u8]) -> Result<Vec<u8>, LineFault>
    ensures { IfOk result (λ copy. copy.items ≡ bytes.now) }
{
    Ok(Vec::from_slice(alloc, bytes)?)
}
