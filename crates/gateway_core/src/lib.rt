//! A gateway: what the readers of one configuration hold is published again by another
//! (OPC 10000-14 6.2.3, PubSubConfiguration).
#![tactic(auto)]

mod collected;
mod gateway;
mod laws;
mod opening;
mod renewing;
mod showing;
mod sources;

pub use gateway::Gateway;
pub use laws::a_gateway_that_is_not_renewed_stands_behind_its_steps;
pub use ua_base::{Pumped, Ticked};
