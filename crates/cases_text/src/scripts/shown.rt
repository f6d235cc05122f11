//! Lines of scripts as text.
use case_lines::{Answer, LineFault, Told};
use ps_script::{Act, Line};
use row_words::Patch;
use std::alloc::Global;
use ua_base::Fate;

/// The answer `ok`, and behind it each of the lines.
pub fn lines_told(alloc: Global, lines: &[Line]) -> Answer {
    let mut told = Told::new(alloc);
    told.say("ok");
    tell_lines(&mut told, lines);
    told.answer()
}

pub fn tell_lines(told: &mut Told, lines: &[Line]) {
    for line in lines {
        told.fill("; # ", &[line.at as u64]);
        tell_act(told, &line.act);
    }
}

/// What a line does. Data sets, readers and components are numbers from 0.
fn tell_act(told: &mut Told, act: &Act) {
    match act {
        Act::Write { thread, set, patch } => {
            told.fill("write # #", &[*thread as u64, *set as u64]);
            tell_patch(told, patch);
        }
        Act::Tick(ms) => told.fill("tick #", &[*ms as u64]),
        Act::Enable(id) => told.fill("enable #", &[*id as u64]),
        Act::Disable(id) => told.fill("disable #", &[*id as u64]),
        Act::Fated { k, fate } => {
            told.fill("fate #", &[*k]);
            tell_fate(told, *fate);
        }
        Act::Watch {
            thread,
            reader,
            times,
        } => told.fill(
            "watch # # #",
            &[*thread as u64, *reader as u64, *times as u64],
        ),
        Act::Append { set } => told.fill("append #", &[*set as u64]),
    }
}

/// A patch: its mask, and the words that aren't zero, each with its place.
fn tell_patch(told: &mut Told, patch: &Patch) {
    told.hex(" ", patch.mask);
    told.say(":");
    let words = &patch.row.words;
    for index in 0..words.len() {
        let word = words[index];
        if word != 0 {
            told.fill(" #", &[index as u64]);
            told.hex("=", word);
        }
    }
}

fn tell_fate(told: &mut Told, fate: Fate) {
    match fate {
        Fate::Drop => told.say(" drop"),
        Fate::Repeat { times } => told.fill(" repeat #", &[times as u64]),
        Fate::Hold { after } => told.fill(" hold #", &[after]),
        Fate::Again { after } => told.fill(" again #", &[after]),
    }
}

/// A line of generated work as a script spells it: a tick, or a write of one of the four fields of the built-in data set.
pub fn tell_spelled(told: &mut Told, line: &Line) -> Result<(), LineFault> {
    match &line.act {
        Act::Write { thread, patch, .. } => {
            told.fill("write #", &[*thread as u64]);
            tell_field(told, patch);
        }
        Act::Tick(ms) => told.fill("tick #", &[*ms as u64]),
        _ => return Err(LineFault::Condition),
    }
    told.say("\n");
    Ok(())
}

/// The field that a patch of generated work changes.
fn tell_field(told: &mut Told, patch: &Patch) {
    let words = &patch.row.words;
    match patch.mask {
        1 => told.fill(" demo a=#", &[words[0]]),
        2 => told.fill(" demo b=#", &[words[1]]),
        4 => told.fill(" demo c=#", &[words[2]]),
        _ => told.fill(" demo d=#", &[words[3]]),
    }
}
