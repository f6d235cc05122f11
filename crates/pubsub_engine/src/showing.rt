//! What a session shows while it runs.
ghost use Rattle.std.specs.Prelude.{◌≡◌, ◌<◌, List, length};
ghost use Rattle.pubsub_states.specs.Components.{IsAmong, counts_of};
ghost use Rattle.reader_group.specs.Settings.{group_at};
ghost use Rattle.session_model.specs.Steps.{Plan, Step, moment_of};
ghost use Rattle.session_model.specs.Answers.{answers_at};
ghost use Rattle.session_model.specs.Closing.{link_end};
ghost use Rattle.session_model.specs.States.{state_at};
ghost use Rattle.session_model.specs.Lives.{Lived, account_in, state_in, steps_in};
ghost use Rattle.session_parts.specs.Showing.{IsReaderAt, IsReaderIn, link_of, sender_in, standing_at, standing_of};
ghost use Rattle.session_parts.specs.Standing.{IsTallyOf};
ghost use Rattle.pubsub_engine.specs.Holding.{IsSession, plan_of};
ghost use Rattle.pubsub_engine.specs.Standing.{Stands};
ghost use Rattle.pubsub_engine.specs.Living.{StandsIn};

use crate::session::Session;
use dataset_reader::Reader;
use ps_report::LinkEnd;
use pubsub_states::{Component, State};
use session_parts::{Tally, link_end};

impl Session<'_> {
    /// Milliseconds since it was opened: the sum of what its ticks took.
    pub fn moment(&self) -> u64
        ensures stands { (p : Plan) (steps : List Step) → Stands p steps self.now
            → result ≡ moment_of steps }
        ensures lives { (p : Plan) (life : List Lived) → StandsIn p life self.now
            → result ≡ moment_of (steps_in life) }
    {
        self.round.moment
    }

    /// The state of a component (OPC 10000-14 6.2.1, PubSubState).
    pub fn state(&self, component: Component) -> State
        requires session { IsSession self.now }
        requires there { IsAmong (counts_of (plan_of self.now).config) component }
        ensures stands { (p : Plan) (steps : List Step) → Stands p steps self.now
            → result ≡ state_at p steps component }
        ensures lives { (p : Plan) (life : List Lived) → StandsIn p life self.now
            → result ≡ state_in p life component }
    {
        self.round.tree.state_of(component)
    }

    /// The reader with this index in a read group: the row that it holds and the number of that row's message, why it waits, and
    /// its breaks with the last eight of them.
    pub fn reader(&self, read_group: u8, index: u8) -> &Reader
        requires session { IsSession self.now }
        requires there { read_group < length (plan_of self.now).config.readgroup }
        requires within { index < length (group_at (plan_of self.now).config read_group).reader }
        ensures stands { (p : Plan) (steps : List Step) → Stands p steps self.now
            → IsReaderAt p steps (read_group, index) result.now }
        ensures lives { (p : Plan) (life : List Lived) → StandsIn p life self.now
            → IsReaderIn p (account_in p life).readings (read_group, index) result.now }
    {
        self.round.subscriber.groups[usize::from(read_group)].reader(index)
    }

    /// How many datagrams a read group took, how many it refused for each cause, and how many parts it couldn't read.
    pub fn tally(&self, read_group: u8) -> Tally
        requires session { IsSession self.now }
        requires there { read_group < length (plan_of self.now).config.readgroup }
        ensures stands { (p : Plan) (steps : List Step) → Stands p steps self.now
            → IsTallyOf (answers_at p.config read_group steps) result }
        ensures lives { (p : Plan) (life : List Lived) → StandsIn p life self.now
            → IsTallyOf ((account_in p life).readings read_group).answered result }
    {
        self.round.subscriber.tallies[usize::from(read_group)]
    }

    /// What came of all sends and receives over the link.
    pub fn link(&self) -> LinkEnd
        ensures stands { (p : Plan) (steps : List Step) → Stands p steps self.now
            → result ≡ link_end p steps }
        ensures lives { (p : Plan) (life : List Lived) → StandsIn p life self.now
            → result ≡ link_of (account_in p life).journal (steps_in life) }
    {
        link_end(&self.round.publisher, &self.round.receiving)
    }

    /// The token that a key group's sender uses, and the last number that it used under this token: what a device stores, so that
    /// its next session goes on after it.
    pub fn standing(&self, key_group: u8) -> (u32, u32)
        requires session { IsSession self.now }
        requires there { key_group < length (plan_of self.now).config.keygroup }
        ensures stands { (p : Plan) (steps : List Step) → Stands p steps self.now
            → result ≡ standing_at p steps key_group }
        ensures lives { (p : Plan) (life : List Lived) → StandsIn p life self.now
            → result ≡ standing_of (sender_in p life key_group) }
    {
        self.round.publisher.senders[usize::from(key_group)].standing()
    }
}
