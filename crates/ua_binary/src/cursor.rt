//! Bytes that are read from left to right.
ghost use Rattle.std.specs.Prelude.{◌≡◌, ◌≤◌, length, slice_get};
ghost use Rattle.std.specs.Int.{w16, w32, w64};

use std::error::Error;
use std::fmt;

/// Fewer bytes are left than are asked for.
#[derive(Clone, Copy, Debug, PartialEq, Eq)]
pub struct Short;

impl fmt::Display for Short {
    ghost use Rattle.std.specs.Prelude.{Some};
    ghost use Rattle.ua_binary.specs.FaultTexts.{short};

    ghost output = { λ _. Some short };

    fn fmt<W: fmt::Write>(&self, f: &mut fmt::Formatter<W>) -> fmt::Result {
        f.write_str("the bytes end too early: give the rest too")
    }
}

impl Error for Short {}

/// Bytes, of which those from `at` on are still to be read. Numbers are little-endian
/// (OPC 10000-6 section 5.2.2.2).
#[derive(Clone, Copy, Debug, PartialEq, Eq)]
pub struct Cursor<'a> {
    pub bytes: &'a [u8],
    pub at: usize,
    pub ghost within: { at ≤ length bytes.now },
}

/// A read that is refused leaves the cursor.
impl<'a> Cursor<'a> {
    ghost use Rattle.ua_binary.specs.Reading.{Reads, lent, short, rest_of, byte_at, number_at, bytes_at};

    /// The byte that is read next, if one is left.
    #[inline(always)]
    pub fn peek(&self) -> Option<u8>
        ensures { result ≡ slice_get (rest_of self.now) 0 }
    {
        if self.bytes.len() == self.at {
            return None;
        }
        Some(self.bytes[self.at])
    }

    /// The next byte.
    #[inline(always)]
    pub fn read_u8(&mut self) -> Result<u8, Short>
        ensures { Reads result self.old self.new (byte_at short) }
    {
        if self.bytes.len() == self.at {
            return Err(Short);
        }
        let byte = self.bytes[self.at];
        self.at += 1;
        Ok(byte)
    }

    /// The next `N` bytes, as they stand.
    #[inline(always)]
    pub fn read_array<const N: usize>(&mut self) -> Result<[u8; N], Short>
        ensures { Reads result self.old self.new (bytes_at short N) }
    {
        let Some((array, _)) = self.bytes[self.at..].split_first_chunk() else {
            return Err(Short);
        };
        self.at += N;
        Ok(*array)
    }

    /// The number of the next 2 bytes, the lowest byte first.
    #[inline(always)]
    pub fn read_u16(&mut self) -> Result<u16, Short>
        ensures { Reads result self.old self.new (number_at short w16) }
    {
        Ok(u16::from_le_bytes(self.read_array()?))
    }

    /// The number of the next 4 bytes, the lowest byte first.
    #[inline(always)]
    pub fn read_u32(&mut self) -> Result<u32, Short>
        ensures { Reads result self.old self.new (number_at short w32) }
    {
        Ok(u32::from_le_bytes(self.read_array()?))
    }

    /// The number of the next 8 bytes, the lowest byte first.
    #[inline(always)]
    pub fn read_u64(&mut self) -> Result<u64, Short>
        ensures { Reads result self.old self.new (number_at short w64) }
    {
        Ok(u64::from_le_bytes(self.read_array()?))
    }

    /// The next `len` bytes, as they stand.
    #[inline(always)]
    pub fn read_bytes(&mut self, len: usize) -> Result<&'a [u8], Short>
        ensures { Reads (lent result) self.old self.new (bytes_at short len) }
    {
        let rest = &self.bytes[self.at..];
        if rest.len() < len {
            return Err(Short);
        }
        self.at += len;
        Ok(&rest[..len])
    }
}
