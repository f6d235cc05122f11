//! Which frames share a datagram.
ghost use Rattle.std.specs.Prelude.{◌≡◌, ◌<◌, ◌≤◌, ◌+◌, ◌*◌, length, map, not, ◌&&◌, nat_le, nat_lt};
ghost use Rattle.payload_layout.specs.Packing.{packs_of, pack_of};

use arrayvec::ArrayVec;

/// The frames of one datagram, as many as `count` says, in the order of the writers.
#[derive(Clone, Copy, Debug, Default, PartialEq, Eq)]
pub struct Pack {
    /// How many frames.
    pub count: u8,
    /// Whether it is one frame that doesn't fit, and has to be cut into chunks.
    pub chunked: bool,
}

pub type Packs = ArrayVec<Pack, 16>;

/// The last datagram so far, which may take another frame, and the bytes of its frames.
#[derive(Clone, Copy)]
struct Filling {
    pack: Pack,
    bytes: u32,
}

impl Filling {
    #[inline(always)]
    fn alone(size: u16, room: u32) -> Filling
        ensures count { result.pack.count ≡ 1 }
        ensures chunked { result.pack.chunked ≡ nat_lt room size }
        ensures bytes { result.bytes ≡ size }
        ensures small { result.bytes < 65536 }
    {
        let size = u32::from(size);
        Filling {
            pack: Pack {
                count: 1,
                chunked: room < size,
            },
            bytes: size,
        }
    }

    /// Whether one more frame of this size fits, with the size and the writer id that each further frame takes.
    #[inline(always)]
    fn takes(&self, size: u16, room: u32) -> bool
        requires few { self.now.pack.count ≤ 16 }
        requires small { self.now.bytes ≤ 1048560 }
        ensures { result
            ≡ (not self.now.pack.chunked
            && nat_le (2 * (self.now.pack.count + 1) + (self.now.bytes + size)
            + 2 * self.now.pack.count) room) }
    {
        let count = u32::from(self.pack.count);
        let payload = 2 * (count + 1) + (self.bytes + u32::from(size));
        !self.pack.chunked && payload + 2 * count <= room
    }

    #[inline(always)]
    fn take(&mut self, size: u16)
        requires few { self.old.pack.count ≤ 16 }
        requires small { self.old.bytes ≤ 1048560 }
        ensures count { self.new.pack.count ≡ self.old.pack.count + 1 }
        ensures chunked { self.new.pack.chunked ≡ self.old.pack.chunked }
        ensures bytes { self.new.bytes ≡ self.old.bytes + size }
        ensures small { self.new.bytes < self.old.bytes + 65536 }
    {
        self.pack.count += 1;
        self.bytes += u32::from(size);
    }
}

/// Packs frames of these sizes in bytes, in order: a frame joins the datagram before it while the payload with its sizes, and 2
/// bytes for the writer id of each frame after the first, fits the room, which is in bytes too: what a datagram has for its
/// payload with one writer id in its header. A frame that doesn't fit alone is alone.
pub fn plan(sizes: &[u16], room: u32, packs: &mut Packs)
    requires { length sizes.now ≤ 16 }
    ensures { packs.new.items ≡ map pack_of (packs_of (λ size. size) room sizes.now) }
{
    packs.clear();
    let Some((first, rest)) = sizes.split_first() else {
        return;
    };
    let mut last = Filling::alone(*first, room);
    for size in rest {
        if last.takes(*size, room) {
            last.take(*size);
        } else {
            packs.push(last.pack);
            last = Filling::alone(*size, room);
        }
    }
    packs.push(last.pack);
}
