//! Which scripts lanes take.
ghost use Rattle.std.specs.Prelude.{◌≡◌};
ghost use Rattle.cmd_lanes.specs.Scripts.{is_taken, refusal};

use ps_script::{Act, Script};

/// The first line that lanes don't take, from 1. They take writes, ticks and fates.
pub fn refused(script: &Script) -> Option<u32>
    ensures { result ≡ refusal script.now }
{
    script
        .lines
        .as_slice()
        .iter()
        .find(|line| !is_taken(&line.act))
        .map(|line| line.at)
}

fn is_taken(act: &Act) -> bool
    ensures { result ≡ is_taken act.now }
{
    matches!(act, Act::Write { .. } | Act::Tick(_) | Act::Fated { .. })
}
