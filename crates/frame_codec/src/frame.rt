//! Frames.
use row_words::{Patch, Row};

/// A DataSetMessage (OPC 10000-14 7.2.4.5). What it stands for is the row or the patch of a data set's meta.
#[derive(Clone, Copy, Debug, PartialEq, Eq)]
pub struct Frame {
    /// The DataSetMessageSequenceNumber.
    pub number: Option<u16>,
    /// What the message is, with its fields.
    pub kind: FrameKind,
    /// The major version of the configuration that the sender has.
    pub major: Option<u32>,
    /// Its minor version.
    pub minor: Option<u32>,
}

/// The kinds of DataSetMessage that are sent and read (OPC 10000-14 7.2.4.5), with their fields.
#[derive(Clone, Copy, Debug, PartialEq, Eq)]
pub enum FrameKind {
    /// A key frame: a value for each field.
    Whole(Row),
    /// A delta frame: new values for some of the fields.
    Change(Patch),
    /// A keep-alive.
    Alive,
}
