use arrayvec::ArrayVec;

/// The keys that a security group uses under one token (OPC 10000-14 7.2.4.4, key data of AES-CTR).
#[derive(Clone, Default, Drop)]
pub struct KeySet {
    /// The SecurityTokenId.
    pub token: u32,
    /// The moment from which this set is used, in milliseconds on the clock of `Ring::at`.
    pub from: u64,
    /// The key of HMAC-SHA-256.
    pub signing: [u8; 32],
    /// The key of AES-128 or AES-256, 16 or 32 bytes.
    pub encrypting: ArrayVec<u8, 32>,
    /// The first four bytes of each counter block.
    pub nonce: [u8; 4],
}
