//! What a reader answers to a frame.
use pubsub_model::{Break, Why};

/// How a reader finds a message's place in the run of messages.
#[derive(Clone, Copy, Debug, PartialEq, Eq)]
pub enum Numbering {
    /// By the DataSetMessageSequenceNumber.
    Message,
    /// Not at all: each key frame is held as it comes.
    Unnumbered,
}

/// What a reader answers to a frame.
#[derive(Clone, Copy, Debug, PartialEq, Eq)]
pub struct Took {
    /// What the reader did with it.
    pub outcome: Outcome,
    /// The break in the run of messages that the frame showed.
    pub broke: Option<Break>,
}

/// What a reader did with a frame.
#[derive(Clone, Copy, Debug, PartialEq, Eq)]
pub enum Outcome {
    /// The reader holds the frame's row, or its own with the frame's changes.
    Held,
    /// A keep-alive that tells nothing new.
    Alive,
    /// The frame isn't newer than the last one.
    Older,
    /// The frame was taken, and no row is held.
    Waiting(Why),
    /// The frame is of another major version of the data set.
    WrongMajor { got: u32 },
    /// The frame has no number, or it is a delta frame and the reader goes by none.
    Unnumbered,
}
