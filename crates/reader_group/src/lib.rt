//! A read group: datagrams become rows (OPC 10000-14 6.2.8, ReaderGroup). It filters them, opens them, and gives each of their
//! DataSetMessages to the readers of its writer.
#![tactic(auto)]

mod account;
mod begun;
mod feeding;
mod filter;
mod findings;
mod group;
mod guarding;
mod laws;
mod making;
mod member;
mod notice;
mod opening;
mod payload;
mod pieces;
mod receipt;
mod refusal;
mod refused;
mod slot_frame;
mod tally;

pub use filter::has_class;
pub use group::ReaderGroup;
pub use laws::{
    a_bad_part_leaves_its_reader, a_group_that_is_not_renewed_has_its_plain_reading,
    a_lone_key_frame_is_held, a_renewed_group_takes_no_pair_twice,
    accepted_pairs_are_told_by_datagrams, each_held_row_has_its_number,
    each_held_row_was_confirmed, near_readers_have_their_records,
    places_are_near_where_their_numbers_are, refused_datagrams_leave_no_trace,
    secured_readers_have_their_records, what_a_secured_group_takes_is_signed,
    what_is_not_asked_for_is_not_ours, what_is_spelled_is_handed_on,
};
pub use notice::{Notice, PartFault};
pub use receipt::{Receipt, TokenNumber};
pub use refusal::{Refusal, Taken};
pub use refused::{LastRefusal, Refused, Sender};
