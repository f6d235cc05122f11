//! What a read group made of the datagrams that it got.
ghost use Rattle.std.specs.Prelude.{◌≡◌, ◌<◌, ◌+◌, ◌-◌, ◌^◌, min, slice_set, slice_index};
ghost use Rattle.session_model.specs.Answers.{cause_of, header_cause, guard_cause};

use message_guard::OpenFault;
use reader_group::{Refusal, Taken};
use uadp_header::HeaderFault;

/// What a read group answered to the datagrams that it was given. A count stops at 2^64 - 1.
#[derive(Clone, Copy, Debug)]
pub struct Tally {
    /// How many it took.
    pub taken: u64,
    /// How many it refused for each of 19 causes, in the order of a report; and last, how many parts of those that it took
    /// couldn't be read.
    pub causes: [u64; 20],
}

/// The place of bad parts among the causes.
const BAD_FRAME: usize = 19;

impl Tally {
    ghost use Rattle.std.specs.Prelude.{◌∷◌, List, Result};
    ghost use Rattle.reader_group.specs.declared.refusal.Refusal.{Refusal};
    ghost use Rattle.reader_group.specs.declared.refusal.Taken.{Taken};
    ghost use Rattle.session_parts.specs.Standing.{IsTallyOf};

    /// Before any datagram.
    pub const NONE: Tally = Tally {
        taken: 0,
        causes: [0; 20],
    };

    /// Counts the answer to one datagram more: it was taken, with its bad parts, or refused for its cause.
    pub fn note(&mut self, answer: &Result<Taken, Refusal>)
        ensures { (answers : List (Result Taken Refusal)) → IsTallyOf answers self.old
            → IsTallyOf (answer.now ∷ answers) self.new }
    {
        match answer {
            Ok(taken) => {
                self.taken = self.taken.saturating_add(1);
                self.count(BAD_FRAME, u64::from(taken.bad));
            }
            Err(refusal) => self.count(cause_of(refusal), 1),
        }
    }

    /// Counts so many more at a place, up to 2^64 - 1.
    fn count(&mut self, place: usize, more: u64)
        requires { place < 20 }
        ensures { self.new ≡ record self.old {
          causes = slice_set self.old.causes place
              (min (slice_index self.old.causes place + more) (2 ^ 64 - 1));
        } }
    {
        self.causes[place] = self.causes[place].saturating_add(more);
    }
}

/// The place of a cause in a report.
fn cause_of(refusal: &Refusal) -> usize
    ensures place { result ≡ cause_of refusal.now }
    ensures bound { result < 19 }
{
    match refusal {
        Refusal::Header(fault) => header_cause(*fault),
        Refusal::NotOurs => 6,
        Refusal::Guard(fault) => guard_cause(*fault),
        Refusal::NoIds => 17,
        Refusal::BadSizes => 18,
    }
}

/// The place of a header's fault in a report.
fn header_cause(fault: HeaderFault) -> usize
    ensures place { result ≡ header_cause fault }
    ensures bound { result < 19 }
{
    match fault {
        HeaderFault::Short => 0,
        HeaderFault::Version { .. } => 1,
        HeaderFault::DiscoveryOut => 2,
        HeaderFault::BadPublisherType => 3,
        HeaderFault::ReservedBits => 4,
        HeaderFault::BadId => 5,
    }
}

/// The place of a guard's fault in a report.
fn guard_cause(fault: OpenFault) -> usize
    ensures place { result ≡ guard_cause fault }
    ensures bound { result < 19 }
{
    match fault {
        OpenFault::ModeDiffers => 7,
        OpenFault::FooterOut => 8,
        OpenFault::KeyResetOut => 9,
        OpenFault::BadNonceLength { .. } => 10,
        OpenFault::Short => 11,
        OpenFault::UnknownToken { .. } => 12,
        OpenFault::OldToken { .. } => 13,
        OpenFault::BadSignature => 14,
        OpenFault::Repeated => 15,
        OpenFault::TooOld { .. } => 16,
    }
}
