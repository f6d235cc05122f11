//! Calls that are named to fail, by their numbers from 0.
ghost use Rattle.std.specs.Prelude.{◌≡◌};
ghost use Rattle.mem_edge.specs.Calls.{is_named};

/// Whether a list names this call.
pub(crate) fn names(fails: &[u32], number: u64) -> bool
    ensures { result ≡ is_named fails.now number }
{
    fails.iter().any(|&fail| fail as u64 == number)
}
