//! What an answer of the key service is to a guard: for each moment that the answer covers, a guard over a pulled ring has the
//! keys of a sender that uses the ring's of the moment, and opens what it protected (OPC 10000-14 8.3.2, GetSecurityKeys). And tokens
//! never fall, of a sender and of a guard, whatever rings renew them.
#![tactic(auto)]

mod laws;
mod witness;

pub use laws::{
    a_guard_of_a_pulled_ring_has_the_senders_keys, a_guard_of_a_pulled_ring_is_a_pullers_guard,
    a_guard_of_a_pulled_ring_opens_what_was_sent, a_publishers_sender_goes_on,
    a_pullers_guard_opens_what_was_sent, a_pullers_sender_uses_the_rings_keys,
    a_readers_guard_is_a_pullers_guard, a_renewed_sender_is_the_publishers,
    a_ring_of_lower_tokens_changes_nothing_sent, tokens_never_fall,
};
pub use witness::{a_small_ring_meets_the_premises, other_rings_meet_the_premises};
