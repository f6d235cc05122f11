//! Runs of the program over an outside in memory.
use crate::top::top;
use cmd_base::Word;
use mem_edge::{MemoryFolder, MemoryLink, MemorySink, Name};
use std::alloc::{AllocError, Global};
use std::sync::Wait;
use std::test::Fail;
use std::thread::Threads;
use ua_base::Gate;

/// What a run left.
#[derive(Drop)]
pub(crate) struct Ran {
    pub(crate) status: u8,
    pub(crate) lab: MemoryLink,
    pub(crate) out: MemorySink,
    pub(crate) err: MemorySink,
}

/// The numbers of the calls of this name that fail.
fn failing<N: From<u8> + Drop>(alloc: Global, fails: &str, call: &str) -> Result<Vec<N>, Fail> {
    let mut numbers = Vec::new(alloc);
    for word in fails.split(' ') {
        if let Some(digits) = word.strip_prefix(call) {
            let number = digits.parse::<u8>().ok().ok_or("no number")?;
            numbers.push(N::from(number)).ok().ok_or("memory")?;
        }
    }
    Ok(numbers)
}

/// The folder with the files `s`, `c` and `d`, where there are such.
fn folder_with(alloc: Global, files: &str, fails: &str) -> Result<MemoryFolder, Fail> {
    let mut there = Vec::new(alloc);
    let mut texts = files.split(" | ");
    for name in ["s", "c", "d"] {
        let text = texts.next().unwrap_or("no file");
        add_file(alloc, &mut there, name.as_bytes(), text)?;
    }
    Ok(MemoryFolder::new(there, failing(alloc, fails, "read")?))
}

/// The file that a text stands for.
fn add_file(
    alloc: Global,
    files: &mut Vec<(Name, Vec<u8>)>,
    name: &[u8],
    text: &str,
) -> Result<(), Fail> {
    if text == "no file" {
        return Ok(());
    }
    let name = Name::new(name).ok_or("no name")?;
    let bytes = if text == "too long" {
        vec![in alloc; b'#'; 1_048_577]?
    } else {
        with_lines(alloc, text)?
    };
    files.push((name, bytes)).ok().ok_or("memory")?;
    Ok(())
}

/// The bytes of a text, in which a slash is a line feed.
fn with_lines(alloc: Global, text: &str) -> Result<Vec<u8>, AllocError> {
    let mut bytes = Vec::from_slice(alloc, text.as_bytes())?;
    for byte in &mut bytes {
        if *byte == b'/' {
            *byte = b'\n';
        }
    }
    Ok(bytes)
}

fn link_with(alloc: Global, fails: &str) -> Result<MemoryLink, Fail> {
    let sends = failing(alloc, fails, "send")?;
    let receives = failing(alloc, fails, "receive")?;
    let unopened = fails.split(' ').any(|call| call == "open0");
    Ok(MemoryLink::new(alloc, Vec::new(alloc), sends, receives, unopened))
}

fn sink_with(alloc: Global, fails: &str, call: &str) -> Result<MemorySink, Fail> {
    MemorySink::new(alloc, failing(alloc, fails, call)?)
        .ok()
        .ok_or_else(|| "memory".into())
}

fn words_in(alloc: Global, text: &str) -> Result<Vec<Word>, AllocError> {
    let mut words = Vec::new(alloc);
    for word in text.split(' ') {
        words.push(Word::new(String::from_str(alloc, word)?))?;
    }
    Ok(words)
}

/// Runs the program with these words, these files, and these calls that fail, past this gate.
pub(crate) fn run<R: Threads + Wait + Sync, G: Gate>(
    rt: &R,
    alloc: Global,
    words: &str,
    files: &str,
    fails: &str,
    gate: &G,
) -> Result<Ran, Fail> {
    let words = words_in(alloc, words)?;
    let mut folder = folder_with(alloc, files, fails)?;
    let mut lab = link_with(alloc, fails)?;
    let mut wire = link_with(alloc, fails)?;
    let mut out = sink_with(alloc, fails, "out")?;
    let mut err = sink_with(alloc, fails, "err")?;
    let status = top(
        rt,
        alloc,
        &words,
        &mut folder,
        &mut lab,
        &mut wire,
        gate,
        &mut out,
        &mut err,
    );
    Ok(Ran {
        status,
        lab,
        out,
        err,
    })
}
