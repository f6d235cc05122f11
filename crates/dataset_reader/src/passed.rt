//! How many frames a reader passed over.
ghost use Rattle.std.specs.Prelude.{◌≡◌};
ghost use Rattle.dataset_reader.specs.Passed.{counted, one_more};

use crate::took::Outcome;

/// How many frames a reader passed over since it was made, over all cuts. Each count stands at 2^64 - 1.
#[derive(Clone, Copy, Debug, Default, PartialEq, Eq)]
pub struct Passed {
    /// Those of another major version of the data set: the publisher has another configuration version.
    pub wrong_major: u64,
    /// Those with no number, where the reader goes by numbers, and delta frames, where it goes by none.
    pub unnumbered: u64,
    /// Those that weren't newer than the last record, but for keep-alives.
    pub older: u64,
}

impl Passed {
    /// Counts what a frame was answered.
    pub(crate) fn count(&mut self, outcome: Outcome)
        ensures { self.new ≡ counted self.old outcome }
    {
        match outcome {
            Outcome::WrongMajor { .. } => self.wrong_major = one_more(self.wrong_major),
            Outcome::Unnumbered => self.unnumbered = one_more(self.unnumbered),
            Outcome::Older => self.older = one_more(self.older),
            Outcome::Held | Outcome::Alive | Outcome::Waiting(_) => {}
        }
    }
}

fn one_more(count: u64) -> u64
    ensures { result ≡ one_more count }
{
    count.saturating_add(1)
}
