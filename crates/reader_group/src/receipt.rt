/// When a datagram came, and which number its sender gave it.
#[derive(Clone, Copy, Debug, PartialEq, Eq)]
pub struct Receipt {
    /// The moment, in milliseconds.
    pub moment: u64,
    /// The number in the nonce, where the datagram is secured.
    pub stamp: Option<u32>,
}

/// The SecurityTokenId and the number in the nonce of a datagram that is secured.
#[derive(Clone, Copy, Debug, PartialEq, Eq)]
pub struct TokenNumber {
    /// The SecurityTokenId.
    pub token: u32,
    /// The number in the nonce, its bytes 4 to 7, little-endian.
    pub number: u32,
}
