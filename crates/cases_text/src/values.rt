//! Texts of values.
use case_lines::{Answer, CaseLine, said, string_of};
use config_tables::kind_named;
use std::alloc::Global;
use value_texts::{parse_value, value_text};

/// `KIND CAP TEXT`: the text of the value that TEXT is a text of, or `none`
pub fn value(alloc: Global, line: &mut CaseLine) -> Answer {
    let (Some(kind), Ok(cap)) = (kind_named(line.word()), line.left.u16()) else {
        return said(alloc, "not a kind or cap");
    };
    let Some(value) = parse_value(kind, cap, &line.text(alloc)) else {
        return said(alloc, "none");
    };
    let mut printed = Vec::new(alloc);
    value_text(&value, &mut printed)?;
    Ok(Some(string_of(printed)?))
}
