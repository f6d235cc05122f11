//! A group of a publisher at a moment.
ghost use Rattle.std.specs.Prelude.{◌≡◌, All};
ghost use Rattle.message_guard.specs.Senders.{IsSender};
ghost use Rattle.writer_group.specs.Standing.{AreRowsOf, HasRoom, IsGood};
ghost use Rattle.device.specs.Coming.{Did};
ghost use Rattle.device.specs.Sides.{IsSide};
ghost use Rattle.device.specs.Looking.{LeavesOut, LeavesSenders, is_held};

use crate::side::Side;
use message_guard::Sender;
use ps_config::Config;
use writer_group::{Datagrams, Sampled};

/// What a group did as it was looked at.
#[derive(Clone, Copy)]
pub enum Looked {
    /// It isn't due.
    Idle,
    /// It is due, and may have no turn.
    Held,
    /// It had its turn, which made so many datagrams.
    Made(u32),
}

/// The group's turn, if it is due at `now` and may have one (`Side::turn`). A turn counts as that of the last multiple of the group's
/// interval, so that it doesn't drift.
pub fn look(
    config: &Config,
    side: &mut Side,
    now: u64,
    rows: &[Sampled],
    senders: &mut [Sender],
    out: &mut Datagrams,
) -> Looked
    requires good { IsGood config.now }
    requires side { IsSide config.now side.old }
    requires rows { AreRowsOf config.now.dataset rows.now }
    requires senders { All IsSender senders.old }
    requires reserved { HasRoom config.now out.old }
    ensures side { IsSide config.now side.new }
    ensures senders { All IsSender senders.new }
    ensures reserved { HasRoom config.now out.new }
    ensures did { Did config.now now rows.now senders.old out.new result side.old side.new }
    ensures numbers { LeavesSenders config.now side.old.index result senders.old senders.new }
    ensures out { LeavesOut result out.old out.new }
{
    if !side.is_due(now) {
        return Looked::Idle;
    }
    let moment = side.moment_of(now);
    match side.turn(config, moment, rows, senders, out) {
        None => Looked::Held,
        Some(made) => Looked::Made(made),
    }
}

/// Whether it is due, and may have no turn.
pub fn is_held(looked: Looked) -> bool
    ensures { result ≡ is_held looked }
{
    matches!(looked, Looked::Held)
}
