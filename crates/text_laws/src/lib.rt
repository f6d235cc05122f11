//! The texts of `json` and of `relay` determine what they tell.
#![tactic(auto)]

mod laws;
mod witness;

pub use laws::{
    a_line_of_json_is_one_line, a_text_of_a_relay_tells_one_gateway, a_text_of_json_tells_its_lines,
};
pub use witness::a_small_relay_meets_what_is_asked;
