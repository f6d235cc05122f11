//! How long a session may be for a number of 16 bits to tell a version.
ghost use Rattle.std.specs.Prelude.{◌≤◌};
ghost use Rattle.session_model.specs.Counts.{life_ticks};
ghost use Rattle.writer_group.specs.Standing.{IsGood};

use crate::calls::{device_of, end, round};
use crate::configuration::configured;
use crate::ends::{holds, logs};
use crate::renewing::{FIRST, empty_link, opens};
use crate::showing::Expected;
use ps_config::Config;
use std::alloc::Global;
use std::process::Abort;
use std::sync::Wait;
use std::test::Fail;

/// After the closing tick, which is the second, takes no time and sends the row once more: the message has the next number, so it
/// is stored again.
const LAST: Expected = Expected {
    moment: 100,
    standing: (5, 2),
    taken: 2,
    unknown: 0,
    waiting: 0,
    older: 0,
    number: 1,
    version: 1,
    tells: true,
    stores: 2,
};

#[test]
fn versions_are_told_up_to_65536_ticks(rt: HostRuntime) -> Result<(), Fail> {
    let alloc = rt.alloc();
    let config = configured(alloc)?;
    lasts(&rt, alloc, &config, 65_535, true)?;
    lasts(&rt, alloc, &config, 65_536, false)
}

/// A session in which so many ticks may come before the closing one, and one does. Its log keeps nine data frames, so it isn't
/// whole.
fn lasts<R: Wait + Abort>(
    rt: &R,
    alloc: Global,
    config: &Config,
    ticks: u64,
    tells: bool,
) -> Result<(), Fail>
    requires good { IsGood config.now }
    requires few { ticks ≤ life_ticks }
{
    let mut link = empty_link(alloc);
    opens(rt, &mut link, &[]);
    let mut device = device_of(rt, alloc, config, ticks)?;
    round(rt, &mut device, &mut link, 1, Expected { tells, ..FIRST })?;
    let last = Expected { tells, ..LAST };
    let closed = end(rt, alloc, device, &mut link, last)?;
    logs(rt, &closed, &[(0, 1), (1, 1)])?;
    holds(rt, &closed, last, &[])
}
