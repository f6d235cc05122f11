//! The values of a data set's fields in the JSON mapping (OPC 10000-14 section 7.2.5, OPC 10000-6
//! section 5.4): written, and read.
#![tactic(auto)]

mod laws;
mod read;
mod write;

pub use laws::{a_json_value_is_read_as_one_value, written_values_are_read};
pub use read::{number_at, read_field, text_at};
pub use write::field_json;
