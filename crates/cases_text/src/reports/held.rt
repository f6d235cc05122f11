//! Readers, and the rows that they hold.
ghost use Rattle.std.specs.Prelude.{IfOk, IfSome, slice_get};
ghost use Rattle.row_words.specs.Belonging.{Belongs};
ghost use Rattle.ps_report.specs.Conditions.{BelongsTo, HoldsRow};

use crate::reports::ends::{recent, state};
use crate::reports::pieces::Pieces;
use case_lines::{CaseLine, LineFault, set_field, why_of};
use dataset_meta::Meta;
use ps_config::ReaderPart;
use ps_report::{HeldEnd, ReaderEnd, Why};
use row_words::Row;

/// `STATE waits WHY` or `STATE holds N V X ..`, and in the piece behind it the breaks, `N E/G ..`
pub fn reader(sets: &[Meta], part: &ReaderPart, pieces: &mut Pieces) -> Result<ReaderEnd, LineFault>
    ensures { IfOk result (HoldsRow sets.now part.now) }
{
    pieces.begin("reader");
    let state = state(&mut pieces.line);
    let (held, why) = held_or_why(sets, part, &mut pieces.line)?;
    pieces.begin("gaps");
    let breaks = pieces.line.u64();
    Ok(ReaderEnd {
        state,
        held,
        why,
        breaks,
        recent: recent(&mut pieces.line),
    })
}

/// What the reader holds, or why it waits. Of a reader that holds a row the reason isn't told.
fn held_or_why(
    sets: &[Meta],
    part: &ReaderPart,
    line: &mut CaseLine,
) -> Result<(Option<HeldEnd>, Why), LineFault>
    ensures { IfOk result (λ told. IfSome told.0
        (λ held. BelongsTo (slice_get sets.now part.now.dataset) held.row.words)) }
{
    match line.word() {
        "waits" => Ok((None, why_of(line.word())?)),
        "holds" => Ok((Some(held(sets, part, line)?), Why::Gap)),
        _ => Err(LineFault::Missing),
    }
}

/// `N V X ..`, number and version each a dash where there is none
fn held(sets: &[Meta], part: &ReaderPart, line: &mut CaseLine) -> Result<HeldEnd, LineFault>
    ensures { IfOk result (λ held. BelongsTo (slice_get sets.now part.now.dataset) held.row.words) }
{
    let Some(meta) = sets.get(usize::from(part.dataset)) else {
        return Err(LineFault::Condition);
    };
    let number = line.number_or_dash();
    let version = line.number_or_dash();
    let row = row(meta, line)?;
    Ok(HeldEnd {
        number,
        version,
        row,
    })
}

/// A row by a word for each field.
fn row(meta: &Meta, line: &mut CaseLine) -> Result<Row, LineFault>
    ensures { IfOk result (λ row. Belongs meta.now row.words) }
{
    let mut row = Row::opening();
    for index in 0..meta.fields().len() as u8 {
        set_field(meta, &mut row, index, line.word())?;
    }
    Ok(row)
}
