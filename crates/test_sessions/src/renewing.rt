//! A session whose key group is renewed while it runs.
ghost use Rattle.std.specs.Prelude.{IsSome, OnOk};
ghost use Rattle.ua_base.specs.Fates.{AreFates};
ghost use Rattle.writer_group.specs.Standing.{IsGood};
ghost use Rattle.test_sessions.specs.Devices.{IsDevice};

use crate::calls::{device_of, end, renew, round};
use crate::configuration::configured;
use crate::device::Device;
use crate::ends::closes;
use crate::room::TICKS;
use crate::showing::Expected;
use mem_edge::MemoryLink;
use ps_config::Config;
use std::alloc::Global;
use std::process::Abort;
use std::sync::Wait;
use std::test::Fail;
use ua_base::{Fate, Link, Opened};

/// After the first tick: the first datagram under the configured token, 5, was taken.
pub(crate) const FIRST: Expected = Expected {
    moment: 100,
    standing: (5, 1),
    taken: 1,
    unknown: 0,
    waiting: 0,
    older: 0,
    number: 0,
    version: 1,
    tells: true,
    stores: 1,
};

/// After the second: a datagram was sent under a token that the read group's ring hasn't, so the reader holds what it held.
const WITHOUT: Expected = Expected {
    moment: 200,
    standing: (5, 2),
    taken: 1,
    unknown: 1,
    waiting: 0,
    older: 0,
    number: 0,
    version: 1,
    tells: true,
    stores: 1,
};

/// After the third: the ring has the token again, and the key frame is held.
const AGAIN: Expected = Expected {
    moment: 300,
    standing: (5, 3),
    taken: 2,
    unknown: 1,
    waiting: 0,
    older: 0,
    number: 2,
    version: 3,
    tells: true,
    stores: 2,
};

/// After the fourth: a later token of the ring has come, under which numbers begin anew. Its first datagram is held up.
const LATER: Expected = Expected {
    moment: 400,
    standing: (7, 1),
    taken: 2,
    unknown: 1,
    waiting: 1,
    older: 0,
    number: 2,
    version: 3,
    tells: true,
    stores: 2,
};

/// After the closing one, which takes no time and sends the row once more. That datagram comes first, and so the message of the one
/// that was held up, which comes after it, is passed over.
const LAST: Expected = Expected {
    moment: 400,
    standing: (7, 2),
    taken: 4,
    unknown: 1,
    waiting: 0,
    older: 1,
    number: 4,
    version: 4,
    tells: true,
    stores: 3,
};

#[test]
fn a_session_goes_on_under_other_rings(rt: HostRuntime) -> Result<(), Fail> {
    let alloc = rt.alloc();
    let config = configured(alloc)?;
    let mut link = empty_link(alloc);
    opens(&rt, &mut link, &[(3, Fate::Hold { after: 4 })]);
    goes_on(&rt, alloc, &config, &mut link)
}

/// A session from its opening to its close.
fn goes_on<R: Wait + Abort, L: Link>(
    rt: &R,
    alloc: Global,
    config: &Config,
    link: &mut L,
) -> Result<(), Fail>
    requires good { IsGood config.now }
    requires open { IsSome (L.opened_with link.old) }
{
    let mut device = device_of(rt, alloc, config, TICKS)?;
    rounds(rt, &mut device, link)?;
    let closed = end(rt, alloc, device, link, LAST)?;
    closes(rt, &closed, LAST)
}

/// Four rounds, and a ring after each of the first three.
fn rounds<R: Wait + Abort, L: Link>(
    rt: &R,
    device: &mut Device<'_>,
    link: &mut L,
) -> Result<(), Fail>
    requires device { IsDevice device.old }
    requires open { IsSome (L.opened_with link.old) }
    ensures device { OnOk result (IsDevice device.new) }
    ensures open { IsSome (L.opened_with link.new) }
{
    round(rt, device, link, 1, FIRST)?;
    // An earlier token alone: the sender stays under the one in use.
    renew(rt, device, &[(3, 0)], false, FIRST)?;
    round(rt, device, link, 2, WITHOUT)?;
    // The token in use with its keys, though the ring before hadn't it.
    renew(rt, device, &[(5, 0), (6, 350)], true, WITHOUT)?;
    round(rt, device, link, 3, AGAIN)?;
    // The token in use, and a later one that comes with the next tick.
    renew(rt, device, &[(5, 0), (7, 350)], true, AGAIN)?;
    round(rt, device, link, 4, LATER)
}

/// A link in memory that isn't open yet, and whose calls don't fail.
pub(crate) fn empty_link(alloc: Global) -> MemoryLink {
    MemoryLink::new(
        alloc,
        Vec::new(alloc),
        Vec::new(alloc),
        Vec::new(alloc),
        false,
    )
}

/// Opens a link that loses nothing, and gives its datagrams these fates.
pub(crate) fn opens<L: Link>(rt: &impl Abort, link: &mut L, fates: &[(u64, Fate)])
    requires { AreFates fates.now }
    ensures { IsSome (L.opened_with link.new) }
{
    let opened = link.open(4840, fates);
    assert!(rt; opened == Opened::Done);
}
