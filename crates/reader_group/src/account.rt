//! What a datagram brought one reader.

use crate::findings::Findings;
use crate::notice::PartOutcome;
use crate::tally::Tally;

/// How many parts of a datagram a reader was given, and what became of them.
#[derive(Clone, Copy)]
pub(crate) struct Account {
    pub tally: Tally,
    /// What they told.
    pub findings: Findings,
}

impl Account {
    ghost use Rattle.std.specs.Prelude.{◌≡◌, ◌+◌, ◌<◌};
    ghost use Rattle.reader_group.specs.Notices.{findings_on, is_bad, no_findings};
    ghost use Rattle.reader_group.specs.Plain.{count_if};

    pub const NONE: Account = Account {
        tally: Tally::NONE,
        findings: Findings::NONE,
    };

    /// One part more.
    pub fn count(&mut self, outcome: PartOutcome)
        requires matched { self.old.tally.matched < 255 }
        requires bad { self.old.tally.bad < 255 }
        ensures matched { self.new.tally.matched ≡ self.old.tally.matched + 1 }
        ensures bad { self.new.tally.bad ≡ self.old.tally.bad + count_if (is_bad outcome) }
        ensures findings { self.new.findings ≡ findings_on outcome self.old.findings }
    {
        self.tally.matched += 1;
        if let PartOutcome::Bad { .. } = outcome {
            self.tally.bad += 1;
        }
        self.findings.find(outcome);
    }

    /// That of one part.
    pub fn of_one(outcome: PartOutcome) -> Account
        ensures matched { result.tally.matched ≡ 1 }
        ensures bad { result.tally.bad ≡ count_if (is_bad outcome) }
        ensures findings { result.findings ≡ findings_on outcome no_findings }
    {
        let mut account = Account::NONE;
        account.count(outcome);
        account
    }
}
