//! The texts of values: how a script spells a value, and how a report prints one.
#![tactic(auto)]

mod candidate;
mod decimal;
mod laws;
mod parse;
mod print;
mod spelling;

pub use decimal::decimal_number;
pub use laws::{a_word_is_a_text_of_one_value, texts_are_ascii, what_is_printed_is_a_text};
pub use parse::{parse_status, parse_value};
pub use print::{status_text, value_text};
