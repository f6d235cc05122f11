//! Where a configuration that is refused is at fault.
ghost use Rattle.std.specs.Prelude.{◌≡◌, ◌<◌, ◌≤◌, true, false, Err, IfErr, IfOk, Some, length};
ghost use Rattle.std.specs.List.{list_any};
ghost use Rattle.std.specs.Str.{bytes_eq};
ghost use Rattle.config_tables.specs.Paths.{path_text};
ghost use Rattle.ps_config.specs.Reading.{configuration, IsEnd};
ghost use Rattle.uapubsub_c.specs.Answers.{IsTold};
ghost use Rattle.toml.specs.View.{table_view};
ghost use Rattle.uapubsub_c.specs.Places.{IsFaultLine, IsFirstShown, IsLineOf, ShowsAt, TellsPlace, line_feeds, shows, shows_in};

use crate::checking::read;
use crate::status::{Status, tell};
use config_tables::{Path, Place, Placed, tables_of};
use ps_config::ConfigEnd;
use std::alloc::Global;
use toml::Table;

/// The number of the fault of a text that is no TOML document.
const BAD_TOML: u8 = 1;

/// The end of a line.
const LINE_FEED: u8 = 10;

/// Where a configuration that is refused is at fault, as C sees it.
#[repr(C)]
#[derive(Clone, Copy)]
pub struct PlaceWords {
    /// The number of the fault: 1 of C1 BadToml, and so on.
    pub code: u32,
    /// The line, from 1: of C1 that where the reader of TOML ended, else the first one with which the table that is at fault is there.
    pub line: usize,
}

/// Tells where the configuration that the text is is at fault, if it is refused.
#[unsafe(no_mangle)]
pub extern "C" fn uapubsub_config_place(alloc: Global, text: &[u8], place: &mut PlaceWords) -> u32
    ensures { IsTold (TellsPlace text.now) result place.old place.new }
{
    tell(place_in(alloc, text), place)
}

fn place_in(alloc: Global, text: &[u8]) -> Result<PlaceWords, Status>
    ensures { TellsPlace text.now result }
{
    match read(alloc, text) {
        Ok(()) => Err(Status::Nothing),
        Err(end) => place_of_end(alloc, text, &end),
    }
}

fn place_of_end(alloc: Global, text: &[u8], end: &ConfigEnd) -> Result<PlaceWords, Status>
    requires { IsEnd (configuration text.now) end.now }
    ensures { TellsPlace text.now result }
{
    match end {
        ConfigEnd::Memory => Err(Status::Memory),
        ConfigEnd::Refused { code, path } => place_of(alloc, text, *code, path),
    }
}

fn place_of(alloc: Global, text: &[u8], code: u8, path: &Path) -> Result<PlaceWords, Status>
    requires { configuration text.now ≡ Err (code, path.now) }
    ensures { TellsPlace text.now result }
{
    match line_of(alloc, text, code, path) {
        Ok(line) => Ok(PlaceWords {
            code: u32::from(code),
            line,
        }),
        Err(status) => Err(status),
    }
}

fn line_of(alloc: Global, text: &[u8], code: u8, path: &Path) -> Result<usize, Status>
    ensures line { IfOk result (IsFaultLine code path.now text.now) }
    ensures memory { IfErr result (λ status. status ≡ Status.Memory) }
{
    if code == BAD_TOML {
        return Ok(unread_line(alloc, text));
    }
    first_line_with(alloc, text, path)
}

/// The line where the reader of TOML ended.
fn unread_line(alloc: Global, text: &[u8]) -> usize
    ensures { IsLineOf text.now result }
{
    let end = unread_end(alloc, text);
    1 + line_feeds(&text[..end])
}

fn unread_end(alloc: Global, text: &[u8]) -> usize
    ensures { result ≤ length text.now }
{
    let Err(error) = toml::table_from_slice(alloc, text) else {
        return text.len();
    };
    match error.span() {
        Some(span) => span.start,
        None => 0,
    }
}

/// The first line with which the table at this path is there, of those that a text up to them is a document.
fn first_line_with(alloc: Global, text: &[u8], path: &Path) -> Result<usize, Status>
    ensures line { IfOk result (IsFirstShown path.now text.now) }
    ensures memory { IfErr result (λ status. status ≡ Status.Memory) }
{
    for end in 0..text.len() {
        match shows_at(alloc, text, end, path) {
            Ok(false) => {}
            Ok(true) => return Ok(1 + line_feeds(&text[..end])),
            Err(status) => return Err(status),
        }
    }
    Ok(1 + line_feeds(text))
}

/// Whether a line ends at this index, and the text in front of it shows the table.
fn shows_at(alloc: Global, text: &[u8], end: usize, path: &Path) -> Result<bool, Status>
    requires { end < length text.now }
    ensures yes { IfOk result (λ is. is ≡ true → ShowsAt path.now text.now end) }
    ensures no { IfOk result (λ is. is ≡ false → ¬ ShowsAt path.now text.now end) }
    ensures memory { IfErr result (λ status. status ≡ Status.Memory) }
{
    if text[end] != LINE_FEED {
        return Ok(false);
    }
    shows(alloc, &text[..end], path)
}

/// Whether the text is a document that has a table at this path.
#[tactic(auto, using(crate::proofs::Showing::no_document, crate::proofs::Showing::a_document))]
fn shows(alloc: Global, front: &[u8], path: &Path) -> Result<bool, Status>
    ensures shows { IfOk result (λ is. is ≡ shows path.now front.now) }
    ensures memory { IfErr result (λ status. status ≡ Status.Memory) }
{
    match toml::table_from_slice(alloc, front) {
        Ok(document) => shows_in(alloc, &document, path),
        Err(error) => {
            if error.is_memory() {
                Err(Status::Memory)
            } else {
                Ok(false)
            }
        }
    }
}

/// Whether the document has a table at this path.
#[tactic(auto, using(crate::proofs::Showing::listed))]
fn shows_in(alloc: Global, document: &Table, path: &Path) -> Result<bool, Status>
    ensures shows { IfOk result (λ is. is ≡ shows_in path.now (Some (table_view document.now))) }
    ensures memory { IfErr result (λ status. status ≡ Status.Memory) }
{
    match tables_of(alloc, document) {
        Ok(tables) => Ok(has_at(&tables, path)),
        Err(_) => Err(Status::Memory),
    }
}

fn has_at(tables: &[Placed], path: &Path) -> bool
    ensures { result ≡ list_any (λ placed. bytes_eq (path_text placed.place) path.now) tables.now }
{
    tables.iter().any(|placed| is_at(placed.place, path))
}

fn is_at(place: Place, path: &Path) -> bool
    ensures { result ≡ bytes_eq (path_text place) path.now }
{
    let own = Path::of(place);
    own.as_str() == path.as_str()
}

/// How many lines end in the text.
#[tactic(auto, using(crate::proofs::Showing::few_feeds))]
fn line_feeds(text: &[u8]) -> usize
    ensures count { result ≡ line_feeds text.now }
    ensures most { result ≤ length text.now }
{
    text.iter().filter(|byte| **byte == LINE_FEED).count()
}
