//! Fixed layouts (OPC 10000-14, periodic fixed data layout): rows as RawData (7.2.4.5), and the slots of a datagram.
#![tactic(auto)]

mod fault;
mod judge;
mod laws;
mod reading;
mod size;
mod slot;
mod slot_fault;
mod slots;
mod writing;

pub use fault::RawFault;
pub use laws::{
    a_slot_holds_one_frame_or_zeros, bytes_are_of_one_row, datagrams_are_zero_outside_their_slots,
    fewer_bytes_are_short, frames_stand_in_their_slots, payloads_stand_behind_their_header,
    read_rows_fit, rows_are_read_as_spelled, rows_are_refused_at_their_first_fault,
    rows_have_the_size_of_their_meta, slots_have_one_fault, slots_lie_apart_by_their_ends,
    values_are_refused_at_their_first_fault, written_rows_are_read,
};
pub use reading::{read_raw, read_raw_into};
pub use size::{raw_size, raw_width};
pub use slot::Slot;
pub use slot_fault::SlotFault;
pub use slots::Slots;
pub use writing::write_raw;
