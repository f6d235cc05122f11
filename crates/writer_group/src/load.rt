//! What one datagram of a turn carries.

/// What one datagram carries of the turn's frames.
#[derive(Clone, Copy, Debug, PartialEq, Eq)]
pub(crate) enum Load {
    /// As many frames as `count` says, from the one with the index `first` on.
    Frames { first: u8, count: u8 },
    /// The chunk with this index of the frame with that one.
    Chunk { frame: u8, index: u32 },
    /// All frames, each in its writer's slot.
    Slots,
}
