//! Rings that renew a gateway's keys.
ghost use Rattle.std.specs.Prelude.{◌≡◌, ◌<◌, ◌↔◌, IsTrue, List, length};
ghost use Rattle.group_keys.specs.Ring.{is_long as is_long_ring, key_sets};
ghost use Rattle.message_guard.specs.Senders.{KeepsToken};
ghost use Rattle.ps_config.specs.Configs.{is_long};
ghost use Rattle.ps_config.specs.declared.parts.Config.{Config as ConfigValue};
ghost use Rattle.reader_group.specs.Settings.{keygroup_at};
ghost use Rattle.session_model.specs.Lives.{Lived};
ghost use Rattle.session_parts.specs.Showing.{sender_in};
ghost use Rattle.gateway_core.specs.Holding.{IsGateway, KeepsCollected, left_of};
ghost use Rattle.gateway_core.specs.Lived.{GatewayStep, plan_again};
ghost use Rattle.gateway_core.specs.Living.{LeadsRenewed, StandsIn};

use crate::gateway::Gateway;
use group_keys::Ring;

impl Gateway<'_> {
    /// A key group of the second configuration goes on with another ring, whose moments are the gateway's, as a session's does.
    /// The sender goes on under the token in use until a set with a higher one comes, and its numbers go on. The read groups that
    /// share the keys take those of the ring alone from now on, and keep what they took, their readers and their timers. What was
    /// collected stays. The answer is whether the ring has the token in use with the same keys: where it hasn't, readers with
    /// this ring refuse what is sent until the token changes. The keys of the first configuration are its session's to renew.
    pub fn renew(&mut self, key_group: u8, ring: Ring) -> bool
        requires gateway { IsGateway self.old }
        requires there { key_group < length self.old.config.now.keygroup }
        requires long { is_long_ring ring
            ≡ is_long (keygroup_at self.old.config.now key_group).policy }
        ensures gateway { IsGateway self.new }
        ensures kept { (second : ConfigValue) (lived : List GatewayStep) (life : List Lived)
            → StandsIn second lived life self.old → IsTrue result
            ↔ KeepsToken (sender_in (plan_again second) life key_group) (key_sets ring) }
        ensures lives { LeadsRenewed key_group (key_sets ring) self.old self.new }
        ensures collected { KeepsCollected self.old self.new }
        ensures left { left_of self.new ≡ left_of self.old }
    {
        self.round.renew(self.config, key_group, ring)
    }
}
