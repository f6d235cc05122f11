//! What a writer is set to.

/// What a writer is set to (OPC 10000-14 6.2.4, DataSetWriter parameters).
#[derive(Clone, Copy, Debug, PartialEq, Eq)]
pub struct WriterSettings {
    /// The number of the first data frame.
    pub first_number: u16,
    /// A key frame comes at least once in so many turns (6.2.4.3, KeyFrameCount).
    pub key_frame_count: u32,
    /// A keep-alive comes where no frame has been sent for so long (6.2.6.3, KeepAliveTime), in the unit of the moments of
    /// the turns. With 0 none comes.
    pub keep_alive: u64,
    /// Whether the frames carry the configuration version of the data set.
    pub versions: bool,
}
