//! A link that writes each data message that is sent over it in the JSON mapping too (OPC 10000-14 section 7.2.5).
#![tactic(auto)]

mod book;
mod inner;
mod line;
mod made;
mod message;
mod part;
mod publisher;
mod tap;

pub use inner::{Inner, Tapped};
pub use line::JsonLine;
pub use made::Made;
pub use tap::Tap;
