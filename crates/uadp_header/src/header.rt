//! Headers. Texts and lists are lent: by the bytes that a header was read from, or by its sender.

/// Who sent a message. A text is UTF-8.
#[derive(Clone, Copy, Debug, PartialEq, Eq)]
pub enum PublisherId<'a> {
    U8(u8),
    U16(u16),
    U32(u32),
    U64(u64),
    Text(&'a str),
}

/// The ids of the writers whose DataSetMessages are in the payload, as the PayloadHeader gives them.
#[derive(Clone, Copy, Debug, PartialEq, Eq)]
pub enum Ids<'a> {
    /// There is no payload header.
    None,
    /// Two bytes for each id, little-endian; 255 ids at most.
    List(&'a [u8]),
    /// The message is a chunk of a message of this writer.
    Chunk(u16),
}

/// The security header. The size of a footer is read past.
#[derive(Clone, Copy, Debug, PartialEq, Eq)]
pub struct SecurityPart<'a> {
    pub signed: bool,
    pub encrypted: bool,
    /// A security footer stands between payload and signature.
    pub footer: bool,
    /// The sender asks for new keys.
    pub reset: bool,
    /// The SecurityTokenId of the keys.
    pub token: u32,
    /// 255 bytes at most.
    pub nonce: &'a [u8],
}

/// What a header tells. Timestamp, picoseconds and promoted fields are read past, and never written.
#[derive(Clone, Copy, Debug, PartialEq, Eq)]
pub struct Header<'a> {
    pub publisher: Option<PublisherId<'a>>,
    /// The DataSetClassId, a Guid's bytes in the order of the wire.
    pub class_id: Option<[u8; 16]>,
    /// The WriterGroupId.
    pub group: Option<u16>,
    /// The GroupVersion.
    pub version: Option<u32>,
    /// The NetworkMessageNumber.
    pub message_number: Option<u16>,
    /// The SequenceNumber of the group.
    pub sequence: Option<u16>,
    pub ids: Ids<'a>,
    pub security: Option<SecurityPart<'a>>,
}
