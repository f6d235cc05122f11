//! A gateway whose key group is renewed while it runs.
ghost use Rattle.std.specs.Prelude.{IsSome, OnOk};
ghost use Rattle.writer_group.specs.Standing.{IsGood};
ghost use Rattle.test_sessions.specs.Outlets.{IsOutlet};

use crate::configuration::{configured, configured_second};
use crate::outlet::Outlet;
use crate::relaying::{end, outlet_of, renew, round};
use crate::renewing::{empty_link, opens};
use crate::showing::Expected;
use ps_config::Config;
use std::alloc::Global;
use std::process::Abort;
use std::test::Fail;
use ua_base::Link;

/// What the getters tell after a tick of a gateway that publishes the opening row.
fn behind(moment: u64, standing: (u32, u32), taken: u64, unknown: u64, number: u16) -> Expected {
    Expected {
        moment,
        standing,
        taken,
        unknown,
        waiting: 0,
        older: 0,
        number,
        version: 0,
        tells: true,
        stores: 0,
    }
}

#[test]
fn a_gateway_goes_on_under_other_rings(rt: HostRuntime) -> Result<(), Fail> {
    let alloc = rt.alloc();
    let first = configured(alloc)?;
    let second = configured_second(alloc)?;
    let mut link = empty_link(alloc);
    opens(&rt, &mut link, &[]);
    goes_on(&rt, alloc, &first, &second, &mut link)
}

/// A gateway from its opening to its closing tick.
fn goes_on<R: Abort, L: Link>(
    rt: &R,
    alloc: Global,
    first: &Config,
    second: &Config,
    link: &mut L,
) -> Result<(), Fail>
    requires first { IsGood first.now }
    requires second { IsGood second.now }
    requires open { IsSome (L.opened_with link.old) }
{
    let mut outlet = outlet_of(alloc, first, second)?;
    rounds(rt, &mut outlet, link)?;
    end(rt, outlet, link, behind(400, (7, 2), 4, 1, 4))
}

/// Four rounds, and a ring after each of the first three, which are those of the session's test.
fn rounds<R: Abort, L: Link>(rt: &R, outlet: &mut Outlet<'_>, link: &mut L) -> Result<(), Fail>
    requires outlet { IsOutlet outlet.old }
    requires open { IsSome (L.opened_with link.old) }
    ensures outlet { OnOk result (IsOutlet outlet.new) }
    ensures open { IsSome (L.opened_with link.new) }
{
    let begun = behind(100, (5, 1), 1, 0, 0);
    round(rt, outlet, link, begun)?;
    renew(rt, outlet, &[(3, 0)], false, begun)?;
    let without = behind(200, (5, 2), 1, 1, 0);
    round(rt, outlet, link, without)?;
    renew(rt, outlet, &[(5, 0), (6, 350)], true, without)?;
    let again = behind(300, (5, 3), 2, 1, 2);
    round(rt, outlet, link, again)?;
    renew(rt, outlet, &[(5, 0), (7, 350)], true, again)?;
    round(rt, outlet, link, behind(400, (7, 1), 3, 1, 3))
}
