//! The data sets of the cases: one with four numbers, one with statuses, one with a field of each kind.
use dataset_meta::{Field, Meta, Name32};
use std::alloc::{AllocError, Global};
use ua_values::Kind;

/// Their metas.
pub fn all(alloc: Global) -> Result<Vec<Meta>, AllocError> {
    let mut metas = Vec::new(alloc);
    if let Some(meta) = meta(of_numbers(alloc)?, false) {
        metas.push(meta)?;
    }
    if let Some(meta) = meta(measured(alloc)?, true) {
        metas.push(meta)?;
    }
    if let Some(meta) = meta(of_each_kind(alloc)?, false) {
        metas.push(meta)?;
    }
    Ok(metas)
}

fn meta(fields: Vec<Field>, quality: bool) -> Option<Meta> {
    Meta::new(Name32::new(b"demo")?, fields, 1, 1, quality).ok()
}

fn of_numbers(alloc: Global) -> Result<Vec<Field>, AllocError> {
    let mut fields = Vec::new(alloc);
    add(&mut fields, "a", Kind::UInt32, 0)?;
    add(&mut fields, "b", Kind::UInt32, 0)?;
    add(&mut fields, "c", Kind::UInt32, 0)?;
    add(&mut fields, "d", Kind::UInt32, 0)?;
    Ok(fields)
}

fn of_each_kind(alloc: Global) -> Result<Vec<Field>, AllocError> {
    let mut fields = Vec::new(alloc);
    add(&mut fields, "a", Kind::Boolean, 0)?;
    add(&mut fields, "b", Kind::SByte, 0)?;
    add(&mut fields, "c", Kind::Byte, 0)?;
    add(&mut fields, "d", Kind::Int16, 0)?;
    add(&mut fields, "e", Kind::UInt16, 0)?;
    add(&mut fields, "f", Kind::Int32, 0)?;
    add(&mut fields, "g", Kind::UInt32, 0)?;
    add(&mut fields, "h", Kind::Int64, 0)?;
    add(&mut fields, "i", Kind::UInt64, 0)?;
    add(&mut fields, "j", Kind::Float, 0)?;
    add(&mut fields, "k", Kind::Double, 0)?;
    add(&mut fields, "l", Kind::String, 20)?;
    add(&mut fields, "m", Kind::DateTime, 0)?;
    add(&mut fields, "n", Kind::Guid, 0)?;
    add(&mut fields, "o", Kind::ByteString, 20)?;
    add(&mut fields, "p", Kind::StatusCode, 0)?;
    Ok(fields)
}

fn measured(alloc: Global) -> Result<Vec<Field>, AllocError> {
    let mut fields = Vec::new(alloc);
    add(&mut fields, "zz", Kind::Int32, 0)?;
    add(&mut fields, "s", Kind::String, 256)?;
    add(&mut fields, "b0", Kind::ByteString, 256)?;
    add(&mut fields, "t", Kind::Boolean, 0)?;
    Ok(fields)
}

fn add(fields: &mut Vec<Field>, name: &str, kind: Kind, cap: u16) -> Result<(), AllocError> {
    if let Some(name) = Name32::new(name.as_bytes()) {
        fields.push(Field { name, kind, cap })?;
    }
    Ok(())
}
