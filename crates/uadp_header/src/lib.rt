//! The headers of NetworkMessages (OPC 10000-14 7.2.4.4, UADP NetworkMessage), as values and as bytes.
#![tactic(auto)]

mod fault;
mod flags;
mod header;
mod laws;
mod length;
mod reading;
mod writing;

pub use fault::HeaderFault;
pub use header::{Header, Ids, PublisherId, SecurityPart};
pub use laws::{
    a_length_goes_by_the_parts, bytes_are_of_one_header, bytes_have_one_reading,
    each_further_id_takes_two_bytes, fewer_bytes_are_short, flags_are_judged_by_their_bits,
    headers_are_read_as_spelled, ids_are_two_bytes_each, read_headers_are_headers,
    reading_is_by_parts, senders_write_one_of_the_spellings, written_headers_are_read,
};
pub use length::header_len;
pub use reading::read_header;
pub use writing::write_header;
