//! Laws of scripts that are played over a link in memory: what fates make of them, and that such a link tells to the end.
#![tactic(auto)]

mod laws;
mod witness;

pub use laws::{
    a_memory_link_tells_of_each_session, a_new_memory_link_tells_to_the_end,
    a_pump_takes_all_that_waits,
};
pub use witness::{
    a_play_over_a_new_link_is_played_over_it, a_script_with_a_fate_ends_so,
    a_script_with_a_fate_is_a_script, a_script_with_a_fate_is_read_so,
    a_script_with_a_fate_reports_so,
};
