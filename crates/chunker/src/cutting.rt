ghost use Rattle.std.specs.Prelude.{◌≡◌, ℕ, ◌*◌, ◌-◌, ◌<◌, ◌≤◌, min, List, length, Some, slice_get, take, drop};
ghost use Rattle.chunker.specs.Chunks.{cuts};
ghost use Rattle.chunker.specs.Joining.{chunk_of};

/// Offset and length in bytes of the k-th chunk of a message of `total` bytes, where a chunk has room for `room`.
pub fn cut(total: u32, room: u32, k: u32) -> (u32, u32)
    requires has_room { 1 ≤ room }
    requires within { k * room < total }
    ensures offset { result.0 ≡ k * room }
    ensures len { result.1 ≡ min room (total - k * room) }
    ensures chunk { (place : ℕ) (message : List ℕ) → length message ≡ total
        → slice_get (cuts room place message) k
        ≡ Some (chunk_of place result.0 total (take result.1 (drop result.0 message))) }
{
    let offset = k * room;
    (offset, room.min(total - offset))
}
