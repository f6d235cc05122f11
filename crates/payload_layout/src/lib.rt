//! Which frames share a datagram, and the frames of a datagram's payload (OPC 10000-14, UADP NetworkMessage).
#![tactic(auto)]

mod laws;
mod packing;
mod parts;

pub use laws::{
    frames_come_back_with_their_ids, packed_frames_are_the_frames, packs_are_filled,
    packs_are_told_by_sizes, packs_fit_or_are_cut, payloads_are_as_long_as_counted,
    payloads_are_split_again, split_payloads_are_laid_out,
};
pub use packing::{Pack, Packs, plan};
pub use parts::{BadSizes, Part, Parts, split, write_sizes};
