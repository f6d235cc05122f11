//! Guids for C.

/// The 16 bytes of a Guid as they stand on the wire (OPC 10000-6 section 5.2.2.6): the first three fields are little-endian.
#[repr(C)]
#[derive(Clone, Copy)]
pub struct GuidBytes {
    pub bytes: [u8; 16],
}
