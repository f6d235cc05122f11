//! Protected datagrams (OPC 10000-14 7.2.4.4, PubSub-Aes128-CTR and PubSub-Aes256-CTR): a sender numbers, encrypts and
//! signs; a guard tests a signature, refuses what is old or came before, and decrypts.
#![tactic(auto)]

mod guard;
mod keys;
mod laws;
mod mode;
mod open_fault;
mod pass;
mod ring_keys;
mod sender;

pub use guard::Guard;
pub use laws::{
    a_guard_of_the_ring_has_the_senders_keys, a_passed_datagram_is_signed_and_acceptable,
    a_protected_datagram_is_opened, a_renewed_sender_has_keys_of_its_ring,
    a_sender_has_the_keys_of_the_moment, a_stream_added_twice_is_gone,
    a_written_header_carries_the_front, an_open_datagram_is_left_as_it_is,
    an_unspent_sender_has_1024_numbers, no_pair_is_accepted_twice, no_token_and_number_come_twice,
    no_token_and_number_come_twice_over_restarts,
};
pub use mode::Mode;
pub use open_fault::OpenFault;
pub use pass::Pass1;
pub use sender::Sender;
