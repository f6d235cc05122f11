//! The faults of a line that need nothing but the line: its bytes, its words, its numbers.
ghost use Rattle.std.specs.Prelude.{◌≡◌};
ghost use Rattle.std.specs.List.{list_all};
ghost use Rattle.ps_script.specs.Texts.{words_of};
ghost use Rattle.ps_script.specs.Verbs.{verb_of, is_idle};
ghost use Rattle.ps_script.specs.Fields.{is_field_word, has_byte};
ghost use Rattle.ps_script.specs.Writes.{is_idle_line};
ghost use Rattle.ps_script.specs.Faults.{is_bad_byte, is_bad_text, is_long, has_unknown_fate, has_unknown_word, field_words, has_fate_count, has_shape, is_bad_shape, has_fate_number, has_numbers, has_bad_number};

use crate::numbers::is_number;
use crate::texts::{behind_words, count_words, first_word, word};
use crate::verbs::{FateWord, Verb};

/// How many bytes a line may have, its line feed aside.
const LINE_BYTES: usize = 1024;

/// The greatest number of a datagram that a fate may name.
pub(crate) const LAST_DATAGRAM: u64 = 1_000_000;

/// A byte outside 20 to 7e.
pub(crate) fn is_bad_text(line: &[u8]) -> bool
    ensures { result ≡ is_bad_text line.now }
{
    line.iter().any(|byte| is_bad_byte(*byte))
}

fn is_bad_byte(byte: u8) -> bool
    ensures { result ≡ is_bad_byte byte }
{
    byte < b' ' || b'~' < byte
}

/// More bytes than a line may have.
pub(crate) fn is_long(line: &[u8]) -> bool
    ensures { result ≡ is_long line.now }
{
    LINE_BYTES < line.len()
}

/// The first word, or the third of a fate, is none that there is.
pub(crate) fn has_unknown_word(line: &[u8], verb: Option<Verb>) -> bool
    requires { verb ≡ verb_of line.now }
    ensures { result ≡ has_unknown_word line.now }
{
    !is_idle(word(line, 0)) && (verb.is_none() || has_unknown_fate(line, verb))
}

/// A line without a fault that does nothing: an empty one, or a comment.
pub(crate) fn is_idle_line(line: &[u8]) -> bool
    ensures { result ≡ is_idle_line line.now }
{
    is_idle(word(line, 0)) && !is_long(line) && !is_bad_text(line)
}

/// An empty line, or a comment.
fn is_idle(first: &[u8]) -> bool
    ensures { result ≡ is_idle first.now }
{
    match first {
        [] => true,
        [byte, ..] => *byte == b'#',
    }
}

fn has_unknown_fate(line: &[u8], verb: Option<Verb>) -> bool
    ensures { result ≡ has_unknown_fate line.now verb }
{
    match verb {
        Some(Verb::Fate) => 3 <= count_words(line) && FateWord::of(line).is_none(),
        _ => false,
    }
}

/// A wrong number of words, or a field word without `=`.
pub(crate) fn is_bad_shape(line: &[u8], verb: Option<Verb>) -> bool
    requires { verb ≡ verb_of line.now }
    ensures { result ≡ is_bad_shape line.now }
{
    match verb {
        Some(verb) => !has_shape(line, verb),
        None => false,
    }
}

fn has_shape(line: &[u8], verb: Verb) -> bool
    ensures { result ≡ has_shape line.now verb }
{
    let count = count_words(line);
    match verb {
        Verb::Write => 4 <= count && has_field_words(line),
        Verb::Tick | Verb::Enable | Verb::Disable => count == 2,
        Verb::Append => count == 4 || count == 5,
        Verb::Fate => has_fate_count(count, FateWord::of(line)),
        Verb::Watch => count == 4,
    }
}

fn has_fate_count(count: usize, fate: Option<FateWord>) -> bool
    ensures { result ≡ has_fate_count count fate }
{
    match fate {
        None => false,
        Some(FateWord::Drop) => count == 3,
        Some(_) => count == 4,
    }
}

fn has_field_words(line: &[u8]) -> bool
    ensures { result ≡ list_all is_field_word (field_words line.now) }
{
    let mut rest = behind_words(line, 3);
    'words: while let Some((word, behind)) = first_word(rest) {
        if !has_byte(word, b'=') {
            return false;
        }
        rest = behind;
    }
    true
}

pub(crate) fn has_byte(bytes: &[u8], mark: u8) -> bool
    ensures { result ≡ has_byte mark bytes.now }
{
    bytes.iter().any(|byte| *byte == mark)
}

/// A number that isn't one, or out of its range.
pub(crate) fn has_bad_number(line: &[u8], verb: Option<Verb>) -> bool
    requires { verb ≡ verb_of line.now }
    ensures { result ≡ has_bad_number line.now }
{
    match verb {
        Some(verb) => !has_numbers(line, verb),
        None => false,
    }
}

fn has_numbers(line: &[u8], verb: Verb) -> bool
    ensures { result ≡ has_numbers line.now verb }
{
    match verb {
        Verb::Write => is_number(word(line, 1), 0, 7),
        Verb::Tick => is_number(word(line, 1), 1, 3_600_000),
        Verb::Append => count_words(line) != 5 || is_number(word(line, 4), 1, 256),
        Verb::Fate => {
            is_number(word(line, 1), 0, LAST_DATAGRAM) && has_fate_number(line, FateWord::of(line))
        }
        Verb::Watch => is_number(word(line, 1), 0, 7) && is_number(word(line, 3), 1, 1000),
        Verb::Enable | Verb::Disable => true,
    }
}

fn has_fate_number(line: &[u8], fate: Option<FateWord>) -> bool
    ensures { result ≡ has_fate_number line.now fate }
{
    match fate {
        Some(FateWord::Repeat) => is_number(word(line, 3), 2, 8),
        Some(FateWord::Hold | FateWord::Again) => is_number(word(line, 3), 0, LAST_DATAGRAM),
        _ => true,
    }
}
