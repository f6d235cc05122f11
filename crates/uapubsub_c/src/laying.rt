//! Bytes for C.
ghost use Rattle.std.specs.Prelude.{◌≡◌, ◌≤◌, ◌++◌, drop, length, take};
ghost use Rattle.uapubsub_c.specs.Laying.{AreLaid};
ghost use Rattle.uapubsub_c.specs.Lines.{IsFrontLaid};

use crate::status::Status;

/// Lays the bytes at the front of the buffer, and tells how many there are.
pub fn lay(bytes: &[u8], buffer: &mut [u8]) -> usize
    requires { length bytes.now ≤ length buffer.old }
    ensures laid { buffer.new ≡ bytes.now ++ drop (length bytes.now) buffer.old }
    ensures length { result ≡ length bytes.now }
{
    buffer[..bytes.len()].copy_from_slice(bytes);
    bytes.len()
}

/// Lays the bytes at the front of the buffer, if it has room for all of them, and tells how many there are.
pub fn lay_whole(bytes: &[u8], buffer: &mut [u8], count: &mut usize) -> u32
    ensures { AreLaid bytes.now result buffer.old buffer.new count.new }
{
    *count = bytes.len();
    if bytes.len() > buffer.len() {
        return Status::Room.number();
    }
    *count = lay(bytes, buffer);
    0
}

/// Lays the bytes at the front of the buffer, as far as there is room, and tells how many of them.
pub fn lay_front(bytes: &[u8], buffer: &mut [u8]) -> usize
    ensures laid { IsFrontLaid bytes.now buffer.old buffer.new result }
    ensures room { result ≤ length buffer.old }
{
    let front = front_of(bytes, buffer.len());
    lay(front, buffer)
}

/// The front of the bytes: so many of them, or all where there aren't more.
#[tactic(auto, using(crate::proofs::Lines::all_bytes))]
fn front_of(bytes: &[u8], most: usize) -> &[u8]
    ensures front { result.now ≡ take most bytes.now }
    ensures most { length result.now ≤ most }
{
    if bytes.len() <= most {
        bytes
    } else {
        &bytes[..most]
    }
}
