//! Cases of the command `keys`, with the words that stand behind `run`, over a folder that has the configuration as `c`.
use crate::given::Given;
use crate::shown::tell_end;
use case_lines::{Answer, CaseLine, Told, said};
use cmd_base::Word;
use cmd_keys::{keys, keys_in};
use mem_edge::MemorySink;
use std::alloc::{AllocError, Global};

/// Runs the command: what it writes, and the status that it ends with.
pub(crate) fn run(alloc: Global, given: &Given, line: &CaseLine) -> Answer {
    let words = words_of(alloc, line)?;
    let Some((file, asked)) = keys_in(&words) else {
        return said(alloc, "no keys are asked for");
    };
    let mut folder = given.folder(alloc, b"s")?;
    let mut out = MemorySink::new(alloc, Vec::from_slice(alloc, &given.writes)?)?;
    let status = keys(alloc, file, &asked, &mut folder, &mut out).number();
    let mut told = Told::new(alloc);
    tell_end(&mut told, &out, status)?;
    told.answer()
}

fn words_of(alloc: Global, line: &CaseLine) -> Result<Vec<Word>, AllocError> {
    let mut words = Vec::new(alloc);
    for word in line.words() {
        words.push(Word::new(String::from_str(alloc, word)?))?;
    }
    Ok(words)
}
