//! Rings that renew a session's keys.
ghost use Rattle.std.specs.Prelude.{◌≡◌, ◌<◌, ◌↔◌, IsTrue, List, length};
ghost use Rattle.group_keys.specs.Ring.{is_long as is_long_ring, key_sets};
ghost use Rattle.message_guard.specs.Senders.{KeepsToken};
ghost use Rattle.ps_config.specs.Configs.{is_long};
ghost use Rattle.reader_group.specs.Settings.{keygroup_at};
ghost use Rattle.session_model.specs.Steps.{Plan};
ghost use Rattle.session_model.specs.Lives.{Lived};
ghost use Rattle.session_parts.specs.Showing.{sender_in};
ghost use Rattle.pubsub_engine.specs.Holding.{IsSession, KeepsPasses, appends_left, left_of, plan_of};
ghost use Rattle.pubsub_engine.specs.Living.{LeadsRenewed, StandsIn};

use crate::session::Session;
use group_keys::Ring;

impl Session<'_> {
    /// A key group goes on with another ring, whose moments are the session's and whose keys are as long as the key group's:
    /// `key_service::pulled_for` makes one of an answer that came at `moment`. A ring that counts from its pull, as `pulled` makes
    /// it, would turn a sender that runs through all its keys at once. The sender goes on under the token in use until a set with a
    /// higher one comes, and its numbers go on. The read groups that share the keys take those of the ring alone from now on, and
    /// keep what they took, their readers and their timers. The answer is whether the ring has the token in use with the same keys:
    /// where it hasn't, readers with this ring refuse what is sent until the token changes.
    pub fn renew(&mut self, key_group: u8, ring: Ring) -> bool
        requires session { IsSession self.old }
        requires there { key_group < length (plan_of self.old).config.keygroup }
        requires long { is_long_ring ring
            ≡ is_long (keygroup_at (plan_of self.old).config key_group).policy }
        ensures session { IsSession self.new }
        ensures kept { (p : Plan) (life : List Lived) → StandsIn p life self.old
            → IsTrue result ↔ KeepsToken (sender_in p life key_group) (key_sets ring) }
        ensures lives { LeadsRenewed key_group (key_sets ring) self.old self.new }
        ensures passes { KeepsPasses self.old self.new }
        ensures appends { appends_left self.new ≡ appends_left self.old }
        ensures left { left_of self.new ≡ left_of self.old }
    {
        self.round.renew(self.config, key_group, ring)
    }
}
