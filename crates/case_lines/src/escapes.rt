//! Texts of several lines in one.
ghost use Rattle.std.specs.Prelude.{◌≡◌, IfOk, IfSome, Contains};

use crate::fault::LineFault;
use crate::parsed::{decoded, number, parted};
use std::alloc::{AllocError, Global};

/// The bytes of a text in which `\n`, `\r`, `\t` and `\\` are those characters, `\x{HH..}` bytes, and `\*N(T)` the text T,
/// N times, in which `/` is a line feed; none where it has another escape. A text without a backslash is itself.
pub fn unescaped(alloc: Global, text: &str) -> Result<Option<Vec<u8>>, AllocError>
    ensures { ¬ Contains text.now 92
        → IfOk result (λ told. IfSome told (λ bytes. bytes.items ≡ text.now)) }
{
    let mut bytes = Vec::new(alloc);
    let Some((plain, rest)) = text.split_once('\\') else {
        bytes.extend_from_slice(text.as_bytes())?;
        return Ok(Some(bytes));
    };
    bytes.extend_from_slice(plain.as_bytes())?;
    match push_escapes(alloc, &mut bytes, rest) {
        Ok(()) => Ok(Some(bytes)),
        Err(LineFault::Memory) => Err(AllocError),
        Err(_) => Ok(None),
    }
}

/// What follows a first backslash.
fn push_escapes(alloc: Global, bytes: &mut Vec<u8>, text: &str) -> Result<(), LineFault> {
    let mut is_raw = false;
    for piece in text.split('\\') {
        if is_raw {
            bytes.extend_from_slice(piece.as_bytes())?;
            is_raw = false;
        } else if piece.is_empty() {
            bytes.push(b'\\')?;
            is_raw = true;
        } else {
            push_escape(alloc, bytes, piece)?;
        }
    }
    Ok(())
}

/// An escape, without its backslash, and what follows it.
fn push_escape(alloc: Global, bytes: &mut Vec<u8>, piece: &str) -> Result<(), LineFault> {
    if let Some(rest) = piece.strip_prefix("x{") {
        return push_digits(alloc, bytes, rest);
    }
    if let Some(rest) = piece.strip_prefix("*") {
        return push_times(bytes, rest);
    }
    for (word, byte) in [("n", b'\n'), ("r", b'\r'), ("t", b'\t')] {
        if let Some(rest) = piece.strip_prefix(word) {
            bytes.push(byte)?;
            bytes.extend_from_slice(rest.as_bytes())?;
            return Ok(());
        }
    }
    Err(LineFault::Text)
}

fn push_digits(alloc: Global, bytes: &mut Vec<u8>, text: &str) -> Result<(), LineFault> {
    let (digits, rest) = parted(text, '}')?;
    bytes.extend_from_slice(&decoded(alloc, digits)?)?;
    bytes.extend_from_slice(rest.as_bytes())?;
    Ok(())
}

fn push_times(bytes: &mut Vec<u8>, text: &str) -> Result<(), LineFault> {
    let (times, rest) = parted(text, '(')?;
    let (piece, rest) = parted(rest, ')')?;
    for _ in 0..number::<u32>(times)? {
        for byte in piece.as_bytes() {
            bytes.push(if *byte == b'/' { b'\n' } else { *byte })?;
        }
    }
    bytes.extend_from_slice(rest.as_bytes())?;
    Ok(())
}
