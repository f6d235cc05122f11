//! What a writer answers a turn.
use frame_codec::Frame;

/// What a writer does at a turn.
#[derive(Clone, Copy, Debug, PartialEq, Eq)]
pub enum Turn {
    /// It sends a frame.
    Send(Frame),
    /// It sends nothing.
    Quiet,
}
