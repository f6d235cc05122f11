//! Bytes that are written from left to right.
ghost use Rattle.std.specs.Prelude.{◌≡◌, ◌+◌, ◌≤◌, [], ◌∷◌, length};
ghost use Rattle.std.specs.Int.{w16, w32, w64, to_le_bytes};

use std::error::Error;
use std::fmt;

/// Fewer bytes are left than are to be written.
#[derive(Clone, Copy, Debug, PartialEq, Eq)]
pub struct Room;

impl fmt::Display for Room {
    ghost use Rattle.std.specs.Prelude.{Some};
    ghost use Rattle.ua_binary.specs.FaultTexts.{room};

    ghost output = { λ _. Some room };

    fn fmt<W: fmt::Write>(&self, f: &mut fmt::Formatter<W>) -> fmt::Result {
        f.write_str("there is no room for what is to be written: give more bytes")
    }
}

impl Error for Room {}

/// Bytes, of which those from `at` on are still to be written. Numbers are little-endian
/// (OPC 10000-6 section 5.2.2.2).
#[derive(Debug, Drop)]
pub struct Pen<'a> {
    pub bytes: &'a mut [u8],
    pub at: usize,
    pub ghost within: { at ≤ length bytes.now },
}

/// The calls `put_` are for bytes that there is room for, and test nothing.
impl Pen<'_> {
    ghost use Rattle.ua_binary.specs.Writing.{laid, Puts, Writes};

    /// How many bytes may still be written.
    #[inline(always)]
    pub fn room(&self) -> usize
        ensures { self.now.at + result ≡ length self.now.bytes.now }
    {
        self.bytes.len() - self.at
    }

    /// Writes these bytes.
    #[inline(always)]
    pub fn put_bytes(&mut self, text: &[u8])
        requires { self.old.at + length text.now ≤ length self.old.bytes.now }
        ensures { Puts self.old self.new text.now }
    {
        let end = self.at + text.len();
        self.bytes[self.at..end].copy_from_slice(text);
        self.at = end;
    }

    /// Writes the byte.
    #[inline(always)]
    pub fn put_u8(&mut self, byte: u8)
        requires { self.old.at + 1 ≤ length self.old.bytes.now }
        ensures { Puts self.old self.new (byte ∷ []) }
    {
        self.put_bytes(&[byte]);
    }

    /// Writes the number in 2 bytes, the lowest first.
    #[inline(always)]
    pub fn put_u16(&mut self, number: u16)
        requires { self.old.at + 2 ≤ length self.old.bytes.now }
        ensures { Puts self.old self.new (to_le_bytes w16 number) }
    {
        self.put_bytes(&number.to_le_bytes());
    }

    /// Writes the number in 4 bytes, the lowest first.
    #[inline(always)]
    pub fn put_u32(&mut self, number: u32)
        requires { self.old.at + 4 ≤ length self.old.bytes.now }
        ensures { Puts self.old self.new (to_le_bytes w32 number) }
    {
        self.put_bytes(&number.to_le_bytes());
    }

    /// Writes the number in 8 bytes, the lowest first.
    #[inline(always)]
    pub fn put_u64(&mut self, number: u64)
        requires { self.old.at + 8 ≤ length self.old.bytes.now }
        ensures { Puts self.old self.new (to_le_bytes w64 number) }
    {
        self.put_bytes(&number.to_le_bytes());
    }

    /// Writes all of these bytes, or nothing where there is no room.
    #[inline(always)]
    pub fn write_bytes(&mut self, text: &[u8]) -> Result<(), Room>
        ensures { Writes result self.old self.new text.now }
    {
        if self.room() < text.len() {
            return Err(Room);
        }
        self.put_bytes(text);
        Ok(())
    }

    /// Writes the byte, or nothing where there is no room.
    #[inline(always)]
    pub fn write_u8(&mut self, byte: u8) -> Result<(), Room>
        ensures { Writes result self.old self.new (byte ∷ []) }
    {
        self.write_bytes(&[byte])
    }

    /// Writes the number in 2 bytes, the lowest first, or nothing where there is no room.
    #[inline(always)]
    pub fn write_u16(&mut self, number: u16) -> Result<(), Room>
        ensures { Writes result self.old self.new (to_le_bytes w16 number) }
    {
        self.write_bytes(&number.to_le_bytes())
    }

    /// Writes the number in 4 bytes, the lowest first, or nothing where there is no room.
    #[inline(always)]
    pub fn write_u32(&mut self, number: u32) -> Result<(), Room>
        ensures { Writes result self.old self.new (to_le_bytes w32 number) }
    {
        self.write_bytes(&number.to_le_bytes())
    }

    /// Writes the number in 8 bytes, the lowest first, or nothing where there is no room.
    #[inline(always)]
    pub fn write_u64(&mut self, number: u64) -> Result<(), Room>
        ensures { Writes result self.old self.new (to_le_bytes w64 number) }
    {
        self.write_bytes(&number.to_le_bytes())
    }
}
