//! What read groups answer to a datagram that comes to all of them.
ghost use Rattle.std.specs.Prelude.{◌≡◌, None, slice_index_or};
ghost use Rattle.device.specs.Takings.{has_taken};

use reader_group::{Refusal, Taken};

/// How many read groups a configuration has at most.
pub const MOST_READ_GROUPS: usize = 4;

/// What the read groups answered to a datagram, by their indexes: none where there is no read group.
#[derive(Clone, Copy)]
pub struct Takings {
    pub answers: [Option<Result<Taken, Refusal>>; 4],
}

impl Takings {
    /// What the read group with this index answered. None where there is none.
    pub fn answer(&self, group: u8) -> Option<Result<Taken, Refusal>>
        ensures { result ≡ slice_index_or self.now.answers group None }
    {
        let index = usize::from(group);
        if index >= MOST_READ_GROUPS {
            return None;
        }
        self.answers[index]
    }

    /// Whether the read group with this index took the datagram.
    pub fn took(&self, group: u8) -> bool
        ensures { result ≡ has_taken (slice_index_or self.now.answers group None) }
    {
        match self.answer(group) {
            None => false,
            Some(answer) => answer.is_ok(),
        }
    }
}
