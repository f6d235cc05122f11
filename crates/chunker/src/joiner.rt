ghost use Rattle.std.specs.Prelude.{◌≡◌, ℕ, ◌+◌, ◌≤◌, true, false, length, Some};
ghost use Rattle.chunker.specs.declared.joiner.TheConstants.{MESSAGE_BYTES};

use crate::cover::{is_full, mark};
use seq_number::newer;

/// The longest message that is joined, in bytes.
pub const MESSAGE_BYTES: usize = 4096;

/// What came of a chunk.
#[derive(Clone, Copy, Debug, PartialEq, Eq)]
pub enum Joined {
    /// With it the message is whole; it has that many bytes.
    Whole(u32),
    /// It was laid in, and some byte of its message hasn't come yet.
    Part,
    /// It is of an older message than the current one, or of the current one, which is whole.
    Older,
    /// Its message has `total` bytes, more than `MESSAGE_BYTES`. It is judged after `BadRange`.
    TooLong { total: u32 },
    /// It has no bytes, or they begin at byte `offset` of a message of `total` bytes, and go past its end.
    BadRange { offset: u32, total: u32 },
    /// The chunks of the current message that came before it told of `first` bytes in all, and it tells of `now`.
    Differs { first: u32, now: u32 },
}

/// A message whose chunks are laid in.
#[derive(Clone, Copy)]
struct Message {
    number: u16,
    total: u32,
    is_whole: bool,
    ghost short: { total ≤ MESSAGE_BYTES },
}

/// Joins the chunks of one writer, in whatever order they come, one message at a time.
#[derive(Drop)]
pub struct Joiner {
    message: Option<Message>,
    cover: [u64; 64],
    bytes: [u8; MESSAGE_BYTES],
}

impl Joiner {
    ghost use Rattle.chunker.specs.Chunks.{Chunk};
    ghost use Rattle.chunker.specs.Joining.{Joining, chunk_of, empty, current_case, laid, chunk_case, is_laid, joined_bytes};
    ghost use Rattle.chunker.specs.Joiners.{IsJoinerOf, HasLaid, Meets};

    /// A joiner without a current message.
    pub fn new() -> Joiner
        ensures { IsJoinerOf empty result }
    {
        Joiner {
            message: None,
            cover: [0; 64],
            bytes: [0; MESSAGE_BYTES],
        }
    }

    /// One more chunk: of the message with this number and of `total` bytes those from `offset` on.
    pub fn chunk(&mut self, number: u16, offset: u32, total: u32, part: &[u8]) -> Joined
        ensures case { (kept : Joining) → IsJoinerOf kept self.old
            → Meets (chunk_case kept (chunk_of number offset total part.now)) self.new result }
        ensures stays { is_laid result ≡ false → self.new ≡ self.old }
    {
        if part.is_empty() || part.len() as u64 + u64::from(offset) > u64::from(total) {
            return Joined::BadRange { offset, total };
        }
        if total as usize > MESSAGE_BYTES {
            return Joined::TooLong { total };
        }
        match self.message {
            Some(now) if now.number == number => self.chunk_again(now, offset, total, part),
            Some(now) if !newer(number, now.number) => Joined::Older,
            _ => self.first_chunk(number, offset, total, part),
        }
    }

    /// The current message's bytes once it is whole, and none before.
    pub fn bytes(&self) -> &[u8]
        ensures { (kept : Joining) → IsJoinerOf kept self.now → result.now ≡ joined_bytes kept }
    {
        if let Some(message) = &self.message
            && message.is_whole
        {
            return &self.bytes[..message.total as usize];
        }
        &[]
    }

    /// Forgets the current message.
    pub fn clear(&mut self)
        ensures { IsJoinerOf empty self.new }
    {
        self.message = None;
    }

    // A chunk of the current message.
    fn chunk_again(&mut self, now: Message, offset: u32, total: u32, part: &[u8]) -> Joined
        requires current { self.old.message ≡ Some now }
        requires some { 1 ≤ length part.now }
        requires within { offset + length part.now ≤ total }
        requires short { total ≤ MESSAGE_BYTES }
        ensures case { (kept : Joining) → IsJoinerOf kept self.old
            → Meets (current_case kept (chunk_of now.number offset total part.now) kept.current)
            self.new result }
        ensures stays { is_laid result ≡ false → self.new ≡ self.old }
    {
        if now.is_whole {
            return Joined::Older;
        }
        if total != now.total {
            return Joined::Differs {
                first: now.total,
                now: total,
            };
        }
        self.lay(now.number, offset, total, part)
    }

    // A chunk of a message that becomes the current one.
    fn first_chunk(&mut self, number: u16, offset: u32, total: u32, part: &[u8]) -> Joined
        requires some { 1 ≤ length part.now }
        requires within { offset + length part.now ≤ total }
        requires short { total ≤ MESSAGE_BYTES }
        ensures case { Meets (laid empty (chunk_of number offset total part.now)) self.new result }
        ensures is_laid { is_laid result ≡ true }
    {
        self.cover = [0; 64];
        self.lay(number, offset, total, part)
    }

    // Lays the bytes into the message of this number, and says whether it is whole then.
    fn lay(&mut self, number: u16, offset: u32, total: u32, part: &[u8]) -> Joined
        requires some { 1 ≤ length part.now }
        requires within { offset + length part.now ≤ total }
        requires short { total ≤ MESSAGE_BYTES }
        ensures case { (kept : Joining)
            → HasLaid number total kept.chunks self.old.cover self.old.bytes
            → Meets (laid kept (chunk_of number offset total part.now)) self.new result }
        ensures is_laid { is_laid result ≡ true }
    {
        let first = offset as usize;
        let end = first + part.len();
        self.bytes[first..end].copy_from_slice(part);
        mark(&mut self.cover, first, end);
        let is_whole = is_full(&self.cover, total as usize);
        self.message = Some(Message {
            number,
            total,
            is_whole,
        });
        if is_whole {
            Joined::Whole(total)
        } else {
            Joined::Part
        }
    }
}
