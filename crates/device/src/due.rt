//! When a publisher next has something to do.
ghost use Rattle.std.specs.Prelude.{◌≡◌, All, Some};
ghost use Rattle.std.specs.List.{AllZip, Any};
ghost use Rattle.std.specs.Option.{option_copied};
ghost use Rattle.message_guard.specs.Senders.{IsSender};
ghost use Rattle.writer_group.specs.Standing.{AreRowsOf, IsGood};
ghost use Rattle.device.specs.Coming.{HasNewToken};
ghost use Rattle.device.specs.Due.{HasTurnDue, KeepsToken, SitsOut, TellsFirst, earlier, first_above};
ghost use Rattle.device.specs.Sides.{HasRing, IsSide};

use crate::side::Side;
use group_keys::{KeySet, Ring};
use message_guard::Sender;
use ps_config::Config;
use writer_group::Sampled;

/// The first moment from `now` on at which a group is due that may have its turn.
pub fn groups_due(
    config: &Config,
    sides: &[Side],
    now: u64,
    rows: &[Sampled],
    senders: &[Sender],
) -> Option<u64>
    requires good { IsGood config.now }
    requires sides { All (IsSide config.now) sides.now }
    requires rows { AreRowsOf config.now.dataset rows.now }
    requires senders { All IsSender senders.now }
    ensures { TellsFirst now (λ t. All (SitsOut config.now rows.now senders.now t) sides.now)
        (λ t. Any (HasTurnDue config.now rows.now senders.now t) sides.now) result }
{
    let mut first = None;
    for g in 0..sides.len() {
        let due = sides[g].next_due(config, now, rows, senders);
        first = earlier(first, due);
    }
    first
}

/// The first moment from `now` on at which a sender has a new token. The rings are theirs.
pub fn keys_due(rings: &[Ring], senders: &[Sender], now: u64) -> Option<u64>
    requires { AllZip HasRing senders.now rings.now }
    ensures { TellsFirst now (λ t. All (KeepsToken t) senders.now)
        (λ t. Any (HasNewToken t) senders.now) result }
{
    let mut first = None;
    for k in 0..senders.len() {
        let due = key_due(&rings[k], &senders[k], now);
        first = earlier(first, due);
    }
    first
}

/// The first moment from `now` on at which the sender has a new token.
fn key_due(ring: &Ring, sender: &Sender, now: u64) -> Option<u64>
    requires { HasRing sender.now ring.now }
    ensures { TellsFirst now (λ t. KeepsToken t sender.now) (λ t. HasNewToken t sender.now) result }
{
    let (token, _) = sender.standing();
    match first_above(ring.key_sets(), token) {
        None => None,
        Some(set) => Some(set.from.max(now)),
    }
}

/// The first set of a higher token.
fn first_above(sets: &[KeySet], token: u32) -> Option<&KeySet>
    ensures { option_copied result ≡ first_above sets.now token }
{
    sets.iter().find(|set| token < set.token)
}

/// The earlier of two moments that may be none.
pub fn earlier(one: Option<u64>, other: Option<u64>) -> Option<u64>
    ensures { result ≡ earlier one other }
{
    match one {
        None => other,
        Some(moment) => Some(earlier_of(moment, other)),
    }
}

fn earlier_of(moment: u64, other: Option<u64>) -> u64
    ensures { Some result ≡ earlier (Some moment) other }
{
    match other {
        None => moment,
        Some(another) => moment.min(another),
    }
}
