//! DataSetMessages of any data set as bytes: key frames, delta frames and keep-alives (OPC 10000-14 7.2.4.5, UADP DataSetMessage).
#![tactic(auto)]

mod content;
mod fault;
mod faulty;
mod flags;
mod frame;
mod front;
mod laws;
mod length;
mod reading;
mod scalar;
mod writing;

pub use fault::FrameFault;
pub use faulty::{FieldFault, field_fault};
pub use frame::{Frame, FrameKind};
pub use front::{Front, read_front};
pub use laws::{
    bytes_are_of_one_frame, faulty_fields_are_named, fewer_bytes_are_short,
    fields_are_judged_in_their_order, flags_are_judged_first, flags_are_refused_by_their_bits,
    frames_are_not_too_long, frames_are_read_as_spelled, frames_have_one_meaning,
    fronts_are_read_as_spelled, grown_frames_are_read_cut, indexes_are_judged_by_the_fields,
    layouts_differ_in_raw_data_alone, values_are_refused_for_their_own_fault, what_is_read_fits,
    written_frames_are_read, written_fronts_are_read,
};
pub use length::MAX_LEN;
pub use reading::{read_frame, read_frame_into};
pub use writing::{write_frame, write_front};
