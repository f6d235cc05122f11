//! A session of any configuration (OPC 10000-14 6.2.3, PubSubConfiguration): samples, ticks and pumps, switches and appended
//! fields, and what it was when it closed.
#![tactic(auto)]

mod closing;
mod ends;
mod laws;
mod logs;
mod opening;
mod renewing;
mod sampling;
mod session;
mod sets;
mod showing;
mod size;
mod storing;
mod switching;

pub use laws::{
    a_session_that_is_not_renewed_stands_behind_its_steps, each_data_frame_has_its_own_number,
};
pub use logs::version_at;
pub use opening::Opening;
pub use session::Session;
pub use size::{Append, Size};
pub use ua_base::{Pumped, Ticked};
