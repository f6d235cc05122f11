//! Messages in the JSON mapping (OPC 10000-14 section 7.2.5): key frames, delta frames and keep-alives
//! of any data sets, written and read.
#![tactic(auto)]

mod document;
mod json_end;
mod laws;
mod message;
mod parts;
mod payload;
mod reading;
mod writing;

pub use document::read_json;
pub use json_end::JsonEnd;
pub use laws::{elements_are_read_one_way, what_is_written_is_read, written_parts_are_read};
pub use message::{JsonMessage, JsonPart, JsonRead};
pub use parts::JsonParts;
pub use writing::write_json;
