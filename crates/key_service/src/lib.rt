//! The key service of a security group (OPC 10000-14 8.3, SecurityKeyService; 8.3.2, GetSecurityKeys): what it answers from a
//! ring of keys, how request and reply stand in bytes, and the ring that a puller makes of an answer. Moments and spans are in
//! milliseconds.
#![tactic(auto)]

mod copies;
mod laws;
mod listing;
mod puller;
mod reading;
mod service;
mod service_fault;
mod wire_fault;
mod writing;

pub use laws::{
    a_current_answer_can_be_pulled, a_later_clock_uses_the_same_keys,
    a_puller_uses_the_publishers_keys, a_read_answer_is_pulled_as_the_answer,
    a_written_answer_is_pulled, a_written_reply_is_read, a_written_request_is_read,
    an_answer_is_a_reply, the_keys_of_covered_moments_are_pulled,
};
pub use puller::{can_be_pulled, pulled, pulled_at, pulled_for};
pub use reading::{Request, read_reply, read_request};
pub use service::{Keys, Service};
pub use service_fault::{KeyFault, ServiceFault};
pub use wire_fault::WireFault;
pub use writing::{write_reply, write_request};
