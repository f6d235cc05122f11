//! How large a session of these tests is.
ghost use Rattle.std.specs.Prelude.{◌≡◌, [], ◌∷◌, replicate};

use arrayvec::ArrayVec;
use pubsub_engine::Size;

/// How many ticks there may be before the closing one of a session whose length doesn't matter.
pub(crate) const TICKS: u64 = 8;

/// Room for so many ticks, for nine data frames in each log, and for a write of each of eight threads.
pub(crate) fn room_of(ticks: u64) -> Size
    ensures ticks { result.ticks ≡ ticks }
    ensures writes { result.writes.items ≡ replicate 8 1 ∷ [] }
    ensures appends { result.appends.items ≡ [] }
{
    let mut writes = ArrayVec::new();
    writes.push([1; 8]);
    Size {
        ticks,
        logged: 9,
        writes,
        appends: ArrayVec::new(),
    }
}
