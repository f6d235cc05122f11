//! What the parts of a datagram told of a reader's messages.
ghost use Rattle.std.specs.Prelude.{◌≡◌};
ghost use Rattle.reader_group.specs.Notices.{more_of, missing_in};

use crate::notice::{PartFault, PartOutcome};
use dataset_reader::{Outcome, Took};
use frame_codec::FieldFault;
use pubsub_model::Break;

/// What a reader's parts told, beside how many they were.
#[derive(Clone, Copy, Debug, Default, PartialEq, Eq)]
pub(crate) struct Findings {
    /// Why the last of those that couldn't be read couldn't.
    pub fault: Option<PartFault>,
    /// The field whose value has that fault.
    pub field: Option<FieldFault>,
    /// The major version of the last message of another one.
    pub major: Option<u32>,
    /// How many messages were missing.
    pub lost: u64,
    /// How often a row was stored.
    pub stored: u64,
    /// Whether the reader took a message.
    pub taken: bool,
}

impl Findings {
    ghost use Rattle.reader_group.specs.Notices.{findings_on, findings_given, findings_by};

    pub const NONE: Findings = Findings {
        fault: None,
        field: None,
        major: None,
        lost: 0,
        stored: 0,
        taken: false,
    };

    /// After one part more.
    pub fn find(&mut self, outcome: PartOutcome)
        ensures { self.new ≡ findings_on outcome self.old }
    {
        match outcome {
            PartOutcome::Laid => {}
            PartOutcome::Given(took) => self.give(took),
            PartOutcome::Bad { fault, field } => {
                self.fault = Some(fault);
                self.field = field;
            }
        }
    }

    // The same of a message, which the reader answered so.
    fn give(&mut self, took: Took)
        ensures { self.new ≡ findings_given took self.old }
    {
        self.lost = more_of(self.lost, missing_in(took.broke));
        self.answer(took.outcome);
    }

    // What the reader did with it.
    fn answer(&mut self, outcome: Outcome)
        ensures { self.new ≡ findings_by outcome self.old }
    {
        match outcome {
            Outcome::Held => {
                self.stored = more_of(self.stored, 1);
                self.taken = true;
            }
            Outcome::Alive | Outcome::Waiting(_) => self.taken = true,
            Outcome::WrongMajor { got } => self.major = Some(got),
            Outcome::Older | Outcome::Unnumbered => {}
        }
    }
}

// How many messages are missing at a break, if there is one.
fn missing_in(broke: Option<Break>) -> u64
    ensures { result ≡ missing_in broke }
{
    match broke {
        None => 0,
        Some(broke) => u64::from(broke.got.wrapping_sub(broke.expected)),
    }
}

/// A count after so many more.
pub(crate) fn more_of(count: u64, more: u64) -> u64
    ensures { result ≡ more_of count more }
{
    count.saturating_add(more)
}
