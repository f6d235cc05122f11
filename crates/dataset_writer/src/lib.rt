//! A data set's writer: which frame it sends at each of its turns (OPC 10000-14 6.2.4.3, KeyFrameCount, and 6.2.6.3,
//! KeepAliveTime).
#![tactic(auto)]

mod kept;
mod laws;
mod sends;
mod settings;
mod turn;
mod writer;

pub use laws::frames_publish_each_row;
pub use settings::WriterSettings;
pub use turn::Turn;
pub use writer::Writer;
