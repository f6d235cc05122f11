//! Messages, and what is read of one.
use crate::parts::JsonParts;
use frame_codec::Frame;
use ua_values::Text;

/// A DataSetMessage of a message.
#[derive(Clone, Copy, Debug)]
pub struct JsonPart {
    /// The DataSetWriterId.
    pub writer: u16,
    /// The place of its data set's meta.
    pub set: u8,
    /// The frame, in the words of this meta.
    pub frame: Frame,
}

/// A NetworkMessage (OPC 10000-14 section 7.2.5).
#[derive(Debug, Drop)]
pub struct JsonMessage {
    /// What tells this message from others of its publisher.
    pub id: u64,
    /// The PublisherId: a text as itself, a number as decimal text.
    pub publisher: Text,
    /// Its DataSetMessages.
    pub parts: JsonParts,
}

/// What is read of a message.
#[derive(Debug, Drop)]
pub struct JsonRead {
    /// The PublisherId.
    pub publisher: Text,
    /// The elements of `Messages` that gave a frame, in their order.
    pub parts: JsonParts,
    /// How many elements gave no frame. The count stands still at 2^32 - 1.
    pub bad: u32,
}
