//! Lines with their answers, as they are printed.
use crate::fault::LineFault;
use crate::shown::Hex;
use std::alloc::Global;
use std::fmt;

/// What a call answers: a text, nothing, or why the line is no case.
pub type Answer = Result<Option<String>, LineFault>;

/// The answer of this text.
pub fn said(alloc: Global, text: &str) -> Answer {
    Ok(Some(String::from_str(alloc, text)?))
}

/// The answer `yes` or `no`.
pub fn yes_or_no(alloc: Global, holds: bool) -> Answer {
    said(alloc, if holds { "yes" } else { "no" })
}

/// The answer that is these bytes.
pub fn told_bytes(alloc: Global, bytes: &[u8]) -> Answer {
    told(alloc, &Hex(bytes))
}

/// The answer that shows this.
pub fn told<T: fmt::Display>(alloc: Global, it: &T) -> Answer {
    Ok(Some(format!(in alloc; "{it}")?))
}

/// The answer that names this fault.
pub fn refused<F: fmt::Debug>(alloc: Global, fault: &F) -> Answer {
    Ok(Some(format!(in alloc; "{fault:?}")?))
}

/// Whether a line is no case, and is printed as it is: an empty one, or one that begins with `#`.
pub fn is_note(line: &str) -> bool {
    line.is_empty() || line.starts_with('#')
}

/// A line, and its answer behind ` -> `, or below it where the answer has several lines.
#[derive(Clone, Copy)]
pub struct AnsweredLine<'a> {
    pub line: &'a str,
    pub answer: &'a Answer,
}

impl fmt::Display for AnsweredLine<'_> {
    fn fmt<W: fmt::Write>(&self, f: &mut fmt::Formatter<W>) -> fmt::Result {
        f.write_str(self.line)?;
        match self.answer {
            Ok(None) => Ok(()),
            Ok(Some(text)) => {
                f.write_str(if text.contains('\n') { " ->\n" } else { " -> " })?;
                f.write_str(text.as_str())
            }
            Err(fault) => write!(f, " -> not a case: {fault:?}"),
        }
    }
}
