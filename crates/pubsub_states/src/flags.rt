//! What a component's state goes by.
ghost use Rattle.std.specs.Prelude.{◌≡◌};

use crate::state::State;

/// What is known of one component. With the state of the component above it, it gives the state.
#[derive(Clone, Copy, Debug, PartialEq, Eq)]
pub struct Flags {
    pub enabled: bool,
    pub fault: bool,
    pub ready: bool,
}

impl Flags {
    ghost use Rattle.pubsub_states.specs.States.{state_under};

    /// The state of the component, where the one above it is in this state.
    pub fn state_under(self, above: State) -> State
        ensures { result ≡ state_under above self }
    {
        if !self.enabled {
            State::Disabled
        } else if !above.is_operational() {
            State::Paused
        } else if self.fault {
            State::Error
        } else if !self.ready {
            State::PreOperational
        } else {
            State::Operational
        }
    }
}
