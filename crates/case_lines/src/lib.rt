//! Lines of cases for the programs that run them: the words of a line and its answer, bytes, kinds, values and texts of several
//! lines as words, both ways, many cases in one line, what lines tell of sessions: their configuration, the values of fields,
//! and why a reader waits; and what all runners do with lines.
#![tactic(auto)]

mod answered;
mod case_line;
mod config;
mod escapes;
mod fault;
mod field;
mod line;
mod numbers;
mod parsed;
mod runner;
mod shown;
mod tables;
mod tally;
mod telling;
mod why;

pub use answered::{Answer, AnsweredLine, is_note, refused, said, told, told_bytes, yes_or_no};
pub use case_line::CaseLine;
pub use config::config_of;
pub use escapes::unescaped;
pub use fault::LineFault;
pub use field::set_field;
pub use line::{Line, bytes_of};
pub use numbers::Numbers;
pub use parsed::{kind_of, number, parted, string_of, value_in, value_of};
pub use runner::{Answers, answer_lines};
pub use shown::{Digits, Hex, Shown};
pub use tables::named;
pub use tally::Tally;
pub use telling::{Told, two, written};
pub use why::why_of;
