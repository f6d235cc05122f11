//! Rows of `dataset_meta`.
use crate::fields::{meta_of, name_of};
use case_lines::{Answer, CaseLine, LineFault, kind_of, number, parted, refused, said, two};
use dataset_meta::{Field, Meta, Name32};
use std::alloc::Global;

/// `name BYTES`: whether the bytes are a name of a data set or a field
pub fn name(alloc: Global, line: &mut CaseLine) -> Answer {
    let bytes = line.rest().as_bytes();
    match Name32::new(bytes) {
        Some(_) => said(alloc, "is a name"),
        None => said(alloc, "is no name"),
    }
}

/// `meta FIELD ..`, a field as NAME:KIND or NAME:KIND:CAP: the words of a row, or the fault
pub fn meta(alloc: Global, line: &mut CaseLine) -> Answer {
    let fields = fields_of(alloc, line)?;
    match Meta::new(name_of("demo")?, fields, 1, 0, false) {
        Ok(meta) => two(alloc, &meta.words(), &"words"),
        Err(fault) => refused(alloc, &fault),
    }
}

fn fields_of(alloc: Global, line: &CaseLine) -> Result<Vec<Field>, LineFault> {
    let mut fields = Vec::new(alloc);
    for word in line.words() {
        fields.push(field_of(word)?)?;
    }
    Ok(fields)
}

/// A data set in one word: its version and its fields, as `1.0/a:UInt32/b:String:60`, and `1.0+quality/..` where it has quality.
pub fn data_set(alloc: Global, word: &str) -> Result<Meta, LineFault> {
    let (version, fields) = parted(word, '/')?;
    let (version, quality) = match version.split_once('+') {
        Some((version, _)) => (version, true),
        None => (version, false),
    };
    let (major, minor) = parted(version, '.')?;
    let (major, minor) = (number(major)?, number(minor)?);
    meta_of(fields_in(alloc, fields)?, major, minor, quality)
}

/// The fields of a data set in one word.
fn fields_in(alloc: Global, word: &str) -> Result<Vec<Field>, LineFault> {
    let mut fields = Vec::new(alloc);
    for field in word.split('/') {
        fields.push(field_of(field)?)?;
    }
    Ok(fields)
}

fn field_of(word: &str) -> Result<Field, LineFault> {
    let (name, rest) = parted(word, ':')?;
    let (kind, cap) = match rest.split_once(':') {
        Some((kind, cap)) => (kind, number::<u16>(cap)?),
        None => (rest, 0),
    };
    Ok(Field {
        name: name_of(name)?,
        kind: kind_of(kind)?,
        cap,
    })
}
