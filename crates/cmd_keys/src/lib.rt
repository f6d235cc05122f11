//! The command `keys`: what the key service of a security group answers (OPC 10000-14 8.3.2, GetSecurityKeys), the group being
//! one of a configuration, and that a guard over the pulled keys opens what is protected under them.
#![tactic(auto)]

mod answering;
mod command;
mod copying;
mod exchange;
mod laws;
mod opening;
mod protecting;
mod put;
mod refusal;
mod text;
mod trial;
mod words;

pub use command::keys;
pub use laws::{
    a_configuration_has_one_text, each_key_that_is_tried_opens, what_is_protected_is_found,
};
pub use refusal::Refusal;
pub use trial::{Exchange, Refused, Trial};
pub use words::{Asked, keys_in};
