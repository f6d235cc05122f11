/// What a guard found of a datagram that it doesn't refuse.
#[derive(Clone, Copy, Debug, PartialEq, Eq)]
pub struct Pass1 {
    /// The SecurityTokenId, or 0 without security.
    pub token: u32,
    /// The number in the nonce, its bytes 4 to 7, little-endian, or 0 without security.
    pub number: u32,
    /// The nonce's first four bytes, or zeros without security.
    pub random: [u8; 4],
    /// Where the payload ends: the signature begins there, or the datagram ends without security.
    pub end: usize,
}
