//! What readers hold.
ghost use Rattle.std.specs.Prelude.{◌≡◌, ◌++◌, OnOk};
ghost use Rattle.row_words.specs.Belonging.{Belongs, row_in};
ghost use Rattle.ps_report.specs.Conditions.{HoldsRow};
ghost use Rattle.ps_report.specs.Lines.{status_mark, field_text, fields_text, numbered_text, waits_text};
ghost use Rattle.ps_report.specs.Reports.{held_text};

use crate::closed::{HeldEnd, ReaderEnd};
use crate::pieces::{put, put_number_or_dash};
use dataset_meta::{Meta, Name32};
use ps_config::ReaderPart;
use pubsub_model::Why;
use row_words::Row;
use ua_base::NoMemory;
use ua_values::Value;
use value_texts::{status_text, value_text};

/// What the reader holds, or why it waits.
#[tactic(auto, unfolding(crate::specs::Reports::held_as))]
pub fn put_held(
    out: &mut Vec<u8>,
    sets: &[Meta],
    part: &ReaderPart,
    end: &ReaderEnd,
) -> Result<(), NoMemory>
    requires { HoldsRow sets.now part.now end.now }
    ensures { OnOk result (out.new.items ≡ out.old.items ++ held_text sets.now part.now end.now) }
{
    match &end.held {
        None => put_waits(out, end.why),
        Some(held) => {
            put_numbered(out, held)?;
            put_row(out, &sets[usize::from(part.dataset)], &held.row)
        }
    }
}

/// Why a reader waits.
#[tactic(auto, unfolding(crate::specs::Lines::waits_text))]
pub fn put_waits(out: &mut Vec<u8>, why: Why) -> Result<(), NoMemory>
    ensures { OnOk result (out.new.items ≡ out.old.items ++ waits_text why) }
{
    put(out, b" waits ")?;
    put(out, why.word().as_bytes())
}

/// The held message's number and version.
#[tactic(auto, unfolding(crate::specs::Lines::numbered_text))]
fn put_numbered(out: &mut Vec<u8>, held: &HeldEnd) -> Result<(), NoMemory>
    ensures { OnOk result
        (out.new.items ≡ out.old.items ++ numbered_text held.now.number held.now.version) }
{
    put(out, b" number ")?;
    put_number_or_dash(out, held.number.map(u64::from))?;
    put(out, b" version ")?;
    put_number_or_dash(out, held.version)?;
    put(out, b":")
}

/// The fields of a row, each with a space before it.
pub fn put_row(out: &mut Vec<u8>, meta: &Meta, row: &Row) -> Result<(), NoMemory>
    requires { Belongs meta.now row.now.words }
    ensures { OnOk result (out.new.items ≡ out.old.items
        ++ fields_text meta.now.fields (row_in meta.now.fields row.now.words)) }
{
    let fields = meta.fields();
    for i in 0..fields.len() {
        let field = &fields[i];
        let value = row.field(meta, i as u8);
        let status = row.status(meta, i as u8);
        put_field(out, &field.name, &value, status)?;
    }
    Ok(())
}

#[tactic(auto, unfolding(crate::specs::Lines::field_text))]
fn put_field(out: &mut Vec<u8>, name: &Name32, value: &Value, status: u32) -> Result<(), NoMemory>
    ensures { OnOk result (out.new.items ≡ out.old.items ++ field_text name.now value.now status) }
{
    put(out, b" ")?;
    put(out, name.as_bytes())?;
    put_status(out, status)?;
    put(out, b"=")?;
    value_text(value, out)
}

/// The status, where it isn't 0.
#[tactic(auto, unfolding(crate::specs::Lines::status_mark))]
fn put_status(out: &mut Vec<u8>, status: u32) -> Result<(), NoMemory>
    ensures { OnOk result (out.new.items ≡ out.old.items ++ status_mark status) }
{
    if status == 0 {
        return Ok(());
    }
    put(out, b"!")?;
    status_text(status, out)
}
