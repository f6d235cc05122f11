//! What a gateway shows while it runs.
ghost use Rattle.std.specs.Prelude.{◌≡◌, ◌<◌, List, length};
ghost use Rattle.ps_config.specs.declared.parts.Config.{Config as ConfigValue};
ghost use Rattle.pubsub_states.specs.Components.{IsAmong, counts_of};
ghost use Rattle.session_model.specs.Answers.{answers_at};
ghost use Rattle.session_model.specs.Closing.{link_end};
ghost use Rattle.session_model.specs.Lives.{Lived, account_in, state_in, steps_in};
ghost use Rattle.session_model.specs.States.{state_at};
ghost use Rattle.session_model.specs.Steps.{moment_of};
ghost use Rattle.session_parts.specs.Showing.{link_of, sender_in, standing_at, standing_of};
ghost use Rattle.session_parts.specs.Standing.{IsTallyOf};
ghost use Rattle.gateway_core.specs.Holding.{IsGateway};
ghost use Rattle.gateway_core.specs.Lived.{GatewayStep, plan_again};
ghost use Rattle.gateway_core.specs.Standing.{Stands, steps_of};
ghost use Rattle.gateway_core.specs.Living.{StandsIn};

use crate::gateway::Gateway;
use ps_report::LinkEnd;
use pubsub_states::{Component, State};
use session_parts::{Tally, link_end};

impl Gateway<'_> {
    /// Milliseconds since it was opened: the sum of what its ticks took.
    pub fn moment(&self) -> u64
        ensures stands { (second : ConfigValue) (lived : List GatewayStep)
            → Stands second lived self.now
            → result ≡ moment_of (steps_of self.now lived) }
        ensures lives { (second : ConfigValue) (lived : List GatewayStep) (life : List Lived)
            → StandsIn second lived life self.now
            → result ≡ moment_of (steps_in life) }
    {
        self.round.moment
    }

    /// The state of a component (OPC 10000-14 6.2.1, PubSubState).
    pub fn state(&self, component: Component) -> State
        requires gateway { IsGateway self.now }
        requires there { IsAmong (counts_of self.now.config.now) component }
        ensures stands { (second : ConfigValue) (lived : List GatewayStep)
            → Stands second lived self.now
            → result ≡ state_at (plan_again second) (steps_of self.now lived) component }
        ensures lives { (second : ConfigValue) (lived : List GatewayStep) (life : List Lived)
            → StandsIn second lived life self.now
            → result ≡ state_in (plan_again second) life component }
    {
        self.round.tree.state_of(component)
    }

    /// How many datagrams a read group took, how many it refused for each cause, and how many parts it couldn't read.
    pub fn tally(&self, read_group: u8) -> Tally
        requires gateway { IsGateway self.now }
        requires there { read_group < length self.now.config.now.readgroup }
        ensures stands { (second : ConfigValue) (lived : List GatewayStep)
            → Stands second lived self.now
            → IsTallyOf (answers_at second read_group (steps_of self.now lived)) result }
        ensures lives { (second : ConfigValue) (lived : List GatewayStep) (life : List Lived)
            → StandsIn second lived life self.now
            → IsTallyOf
            ((account_in (plan_again second) life).readings read_group).answered result }
    {
        self.round.subscriber.tallies[usize::from(read_group)]
    }

    /// What came of all sends and receives over the link.
    pub fn link(&self) -> LinkEnd
        ensures stands { (second : ConfigValue) (lived : List GatewayStep)
            → Stands second lived self.now
            → result ≡ link_end (plan_again second) (steps_of self.now lived) }
        ensures lives { (second : ConfigValue) (lived : List GatewayStep) (life : List Lived)
            → StandsIn second lived life self.now
            → result ≡ link_of (account_in (plan_again second) life).journal (steps_in life) }
    {
        link_end(&self.round.publisher, &self.round.receiving)
    }

    /// The token that a key group's sender uses, and the last number that it used under this token: what a device stores, so that
    /// its next gateway goes on after it.
    pub fn standing(&self, key_group: u8) -> (u32, u32)
        requires gateway { IsGateway self.now }
        requires there { key_group < length self.now.config.now.keygroup }
        ensures stands { (second : ConfigValue) (lived : List GatewayStep)
            → Stands second lived self.now
            → result ≡ standing_at (plan_again second) (steps_of self.now lived) key_group }
        ensures lives { (second : ConfigValue) (lived : List GatewayStep) (life : List Lived)
            → StandsIn second lived life self.now
            → result ≡ standing_of (sender_in (plan_again second) life key_group) }
    {
        self.round.publisher.senders[usize::from(key_group)].standing()
    }
}
