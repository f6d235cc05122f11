//! The state of a component.
ghost use Rattle.std.specs.Prelude.{◌≡◌};

use std::fmt::{self, Display, Formatter, Write};

/// The state of a component (OPC 10000-14 6.2.1, PubSubState).
#[derive(Clone, Copy, Debug, PartialEq, Eq)]
pub enum State {
    /// It isn't enabled.
    Disabled,
    /// It is enabled, and the component above it isn't operational.
    Paused,
    /// It works.
    Operational,
    /// It has a fault.
    Error,
    /// It has no fault and isn't ready yet.
    PreOperational,
}

impl State {
    ghost use Rattle.pubsub_states.specs.States.{number_of, word_of, is_operational};

    /// The number of the state in the standard.
    pub fn number(self) -> u8
        ensures { result ≡ number_of self }
    {
        match self {
            State::Disabled => 0,
            State::Paused => 1,
            State::Operational => 2,
            State::Error => 3,
            State::PreOperational => 4,
        }
    }

    /// The word by which reports tell the state.
    pub fn word(self) -> &'static str
        ensures { result.now ≡ word_of self }
    {
        match self {
            State::Disabled => "disabled",
            State::Paused => "paused",
            State::Operational => "operational",
            State::Error => "error",
            State::PreOperational => "preoperational",
        }
    }

    pub fn is_operational(self) -> bool
        ensures { result ≡ is_operational self }
    {
        matches!(self, State::Operational)
    }
}

impl Display for State {
    ghost use Rattle.std.specs.Prelude.{Some};
    ghost use Rattle.pubsub_states.specs.States.{word_of};

    ghost output = { λ state. Some (word_of state) };

    fn fmt<W: Write>(&self, f: &mut Formatter<W>) -> fmt::Result {
        f.write_str(self.word())
    }
}
