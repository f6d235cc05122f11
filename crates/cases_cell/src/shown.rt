//! What a call has answered, and what a pass has then seen, as text.
use case_lines::{Answer, Told};
use dataset_meta::Meta;
use std::alloc::Global;
use version_cell::{Pass, Placed, Wrote};

/// What a call has answered: a word, and its number where it has one.
#[derive(Drop)]
pub struct Answered {
    word: &'static str,
    number: Option<u64>,
}

/// A word: nothing was called, or the call answers nothing.
pub fn done(word: &'static str) -> Answered {
    Answered { word, number: None }
}

/// A word and a number.
pub fn numbered(word: &'static str, number: u64) -> Answered {
    Answered {
        word,
        number: Some(number),
    }
}

/// A version, or how many stores there are.
pub fn version(number: u64) -> Answered {
    numbered("", number)
}

/// The place of what was split off.
pub fn given(place: usize) -> Answered {
    numbered("given ", place as u64)
}

/// The answer of `try_write`.
pub fn tried(answer: Wrote) -> Answered {
    match answer {
        Wrote::Wrote(version) => numbered("Wrote ", version),
        Wrote::Moved { version } => numbered("Moved ", version),
        Wrote::Full { quota } => numbered("Full ", quota),
    }
}

/// The answer of `write`.
pub fn written(answer: Placed) -> Answered {
    match answer {
        Placed::Wrote(version) => numbered("Wrote ", version),
        Placed::Full { quota } => numbered("Full ", quota),
    }
}

/// The answer alone.
pub fn text(alloc: Global, answer: &Answered) -> Answer {
    let mut told = Told::new(alloc);
    tell(&mut told, answer);
    told.answer()
}

fn tell(told: &mut Told, answer: &Answered) {
    told.say(answer.word);
    told.named("", answer.number);
}

/// The answer, and behind it the version and the row that the pass has seen.
pub fn seen(alloc: Global, answer: &Answered, meta: &Meta, pass: &Pass) -> Answer {
    let mut told = Told::new(alloc);
    tell(&mut told, answer);
    told.fill(" | #:", &[pass.version()]);
    let words = pass.row().words.as_slice();
    let count = meta.fields().len().min(words.len());
    for word in &words[..count] {
        told.fill(" #", &[*word]);
    }
    told.answer()
}
