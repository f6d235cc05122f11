//! Payloads: an object with a member for each field that a frame names.
ghost use Rattle.std.specs.Prelude.{◌≡◌, ◌<◌, ◌==◌, ℕ, List, length, IfOk, MatchOption};
ghost use Rattle.std.specs.List.{HoldsAt};
ghost use Rattle.std.specs.Int.{bit_at};
ghost use Rattle.serde_json.specs.View.{view};
ghost use Rattle.dataset_meta.specs.DataValues.{DataValue};
ghost use Rattle.row_words.specs.Belonging.{Belongs, row_in};
ghost use Rattle.row_words.specs.Patches.{IsPatchOf, patch_in, marked_from};
ghost use Rattle.json_values.specs.Spelled.{field_json as data_of};
ghost use Rattle.json_frames.specs.Written.{fields_json};
ghost use Rattle.json_frames.specs.Reading.{Names};

use dataset_meta::Meta;
use json_values::{field_json, read_field};
use row_words::{Patch, Row};
use serde_json::{Map, Value as Json};
use std::alloc::{AllocError, Global};

/// The fields of a row that the mask marks.
pub fn fields_json(alloc: Global, meta: &Meta, row: &Row, mask: u64) -> Result<Json, AllocError>
    requires { Belongs meta.now row.now.words }
    ensures { IfOk result (λ json. view json ≡ fields_json meta.now
        (marked_from 0 mask (row_in meta.now.fields row.now.words))) }
{
    let mut members = Map::new(alloc);
    let count = meta.fields().len();
    for index in 0..count {
        if is_marked(mask, index) {
            let name = meta.fields()[index].name.as_str();
            let json = one_json(alloc, meta, row, index as u8)?;
            serde_json::put(&mut members, alloc, name, json)?;
        }
    }
    Ok(Json::Object(members))
}

fn one_json(alloc: Global, meta: &Meta, row: &Row, index: u8) -> Result<Json, AllocError>
    requires belongs { Belongs meta.now row.now.words }
    requires index { index < length meta.now.fields }
    ensures { IfOk result (λ json. HoldsAt (λ x. view json ≡ data_of meta.now.quality x)
        (row_in meta.now.fields row.now.words) index) }
{
    let value = row.field(meta, index);
    let status = row.status(meta, index);
    field_json(alloc, meta.quality(), &value, status)
}

fn is_marked(mask: u64, index: usize) -> bool
    requires { index < 64 }
    ensures { result ≡ (bit_at mask index == 1) }
{
    mask >> index & 1 == 1
}

/// The fields that a payload names, and whether these are all.
pub fn read_fields(meta: &Meta, payload: &Json) -> Option<(Patch, bool)>
    ensures { MatchOption result
        ((changes : List (ℕ × DataValue))
        → ¬ Names meta.now.quality (view payload.now) 0 meta.now.fields changes)
        (λ found. IsPatchOf meta.now found.0
        × Names meta.now.quality (view payload.now) 0 meta.now.fields
        (patch_in meta.now.fields found.0)
        × (found.1 ≡ (length (patch_in meta.now.fields found.0) == length meta.now.fields))) }
{
    let mut patch = Patch::empty();
    let mut whole = true;
    let count = meta.fields().len();
    for index in 0..count {
        let field = &meta.fields()[index];
        match payload.get(field.name.as_str()) {
            None => whole = false,
            Some(json) => {
                let Some((value, status)) = read_field(meta.quality(), field, json) else {
                    return None;
                };
                patch.put(meta, index as u8, &value, status);
            }
        }
    }
    Some((patch, whole))
}
