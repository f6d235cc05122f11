//! What an opened datagram has for the readers, lent by its bytes.
ghost use Rattle.std.specs.Prelude.{◌≡◌, ◌≤◌, ◌+◌, ◌*◌, length, take, drop, All};
ghost use Rattle.std.specs.Int.{w16, from_le_bytes};
ghost use Rattle.payload_layout.specs.Payloads.{IsWithin};

use payload_layout::Part;

/// The messages of a dynamic datagram: where each stands in the payload, and the id of its writer, two bytes each.
#[derive(Clone, Copy)]
pub(crate) struct Messages<'a> {
    pub ids: &'a [u8],
    pub parts: &'a [Part],
    pub payload: &'a [u8],
    ghost count: { length ids.now ≡ 2 * length parts.now },
    ghost few: { length parts.now ≤ 255 },
    ghost within: { All (IsWithin payload.now) parts.now },
}

/// What an opened datagram has for the readers.
#[derive(Clone, Copy)]
pub(crate) enum Payload<'a> {
    /// In a fixed layout the header and the slots.
    Slots(&'a [u8]),
    /// In a dynamic layout a chunk of a message of this writer.
    Chunk { writer: u16, bytes: &'a [u8] },
    /// In a dynamic layout messages.
    Messages(Messages<'a>),
}

impl<'a> Messages<'a> {
    ghost use Rattle.std.specs.Prelude.{◌≡◌, ◌+◌, ◌<◌, ◌≤◌, length, map, Some, slice_get, true};
    ghost use Rattle.uadp_header.specs.Headers.{ids_of};
    ghost use Rattle.payload_layout.specs.Payloads.{frame_at};
    ghost use Rattle.reader_group.specs.Held.{listed_at, listed_upto};

    /// The first message from this index on that is of this writer, or how many messages there are. It reads nothing but ids, so
    /// that those of other writers are passed fast.
    pub fn next_of(&self, writer: u16, from: usize) -> usize
        requires { from ≤ length self.now.parts.now }
        ensures within { result ≤ length self.now.parts.now }
        ensures ahead { from ≤ result }
        ensures passed { listed_upto writer result self.now ≡ listed_upto writer from self.now }
        ensures own { result < length self.now.parts.now → (listed_at self.now result).0 ≡ writer }
    {
        let count = self.parts.len();
        for index in self.pass_eights(writer, from)..count {
            if self.id(index) == writer {
                return index;
            }
        }
        count
    }

    /// Passes messages of other writers, eight at a time, as far as it can.
    fn pass_eights(&self, writer: u16, from: usize) -> usize
        requires { from ≤ length self.now.parts.now }
        ensures within { result ≤ length self.now.parts.now }
        ensures ahead { from ≤ result }
        ensures passed { listed_upto writer result self.now ≡ listed_upto writer from self.now }
    {
        let mut index = from;
        while self.are_eight_others(writer, index) {
            index += 8;
        }
        index
    }

    /// Whether eight messages from this index on are there, and of other writers. Their ids are compared with no branch between
    /// them, and so all at once.
    #[inline(always)]
    fn are_eight_others(&self, writer: u16, index: usize) -> bool
        requires { index ≤ length self.now.parts.now }
        ensures within { result ≡ true → index + 8 ≤ length self.now.parts.now }
        ensures passed { result ≡ true
            → listed_upto writer (index + 8) self.now ≡ listed_upto writer index self.now }
    {
        if self.parts.len() - index < 8 {
            return false;
        }
        self.are_four_others(writer, index) & self.are_four_others(writer, index + 4)
    }

    #[inline(always)]
    fn are_four_others(&self, writer: u16, index: usize) -> bool
        requires { index + 4 ≤ length self.now.parts.now }
        ensures { result ≡ true
            → listed_upto writer (index + 4) self.now ≡ listed_upto writer index self.now }
    {
        self.are_two_others(writer, index) & self.are_two_others(writer, index + 2)
    }

    #[inline(always)]
    fn are_two_others(&self, writer: u16, index: usize) -> bool
        requires { index + 2 ≤ length self.now.parts.now }
        ensures { result ≡ true
            → listed_upto writer (index + 2) self.now ≡ listed_upto writer index self.now }
    {
        self.is_other(writer, index) & self.is_other(writer, index + 1)
    }

    #[inline(always)]
    fn is_other(&self, writer: u16, index: usize) -> bool
        requires { index < length self.now.parts.now }
        ensures { result ≡ true
            → listed_upto writer (index + 1) self.now ≡ listed_upto writer index self.now }
    {
        self.id(index) != writer
    }

    /// The id of the writer of the message with this index.
    pub fn id(&self, index: usize) -> u16
        requires { index < length self.now.parts.now }
        ensures { slice_get (ids_of self.now.ids.now) index ≡ Some result }
    {
        id_at(self.ids, index)
    }

    /// The message with this index.
    pub fn message(&self, index: usize) -> &'a [u8]
        requires { index < length self.now.parts.now }
        ensures { slice_get (map (frame_at self.now.payload.now) self.now.parts.now) index
            ≡ Some result.now }
    {
        let part = self.parts[index];
        &self.payload[part.start..part.end]
    }
}

// Two bytes, the lowest first.
fn id_at(ids: &[u8], index: usize) -> u16
    requires { 2 * (index + 1) ≤ length ids.now }
    ensures { result ≡ from_le_bytes w16 (take 2 (drop (2 * index) ids.now)) }
{
    u16::from_le_bytes([ids[2 * index], ids[2 * index + 1]])
}
