//! The report of a closed session, and the pieces of text that it is put together of.
#![tactic(auto)]

mod causes;
mod closed;
mod held;
mod laws;
mod lines;
mod pieces;
mod printing;
mod readers;
mod summary;

pub use closed::{
    Closed, GroupEnd, HeldEnd, History, LinkEnd, ReadGroupEnd, ReaderEnd, WatchEnd, WriterEnd,
};
pub use held::{put_row, put_waits};
pub use laws::{
    a_report_reads_so, an_unnumbered_report_reads_so, ends_go_by_the_configuration, lines_read_so,
    versions_are_found_by_number, watches_are_told_by_thread,
};
pub use lines::{put_end, put_log};
pub use pieces::{put, put_count, put_feed, put_named, put_number_or_dash};
pub use printing::report;
pub use ps_config::Parts;
pub use pubsub_model::{Break, Why};
pub use pubsub_states::State;
pub use summary::load_summary;
pub use value_texts::value_text;
