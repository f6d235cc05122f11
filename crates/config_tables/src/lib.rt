//! The tables of a configuration, which is a TOML document: where each stands, the keys that it
//! may have, and what the values at these keys say.
#![tactic(auto)]

mod class_id;
mod document;
mod fault;
mod grammar;
mod key;
mod number;
mod path;
mod place;
mod publisher;
mod values;
mod words;

pub use class_id::{guid_spelled, hex_bytes};
pub use document::{Placed, tables_of};
pub use fault::Fault;
pub use grammar::{Choice, Form, Row, Spelling, rows_of};
pub use key::Key;
pub use number::number_spelled;
pub use path::Path;
pub use place::{Part, Place};
pub use publisher::Publisher;
pub use value_texts::decimal_number;
pub use values::{number_of, row_fault, text_if, text_of, text_or, truth_of, value_of};
pub use words::{Layout, NumberingWord, Policy, Security, kind_named};
