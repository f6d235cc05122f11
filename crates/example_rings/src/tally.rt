//! What became of datagrams.
use std::fmt::{self, Display, Formatter, Write};

/// What became of datagrams.
#[derive(Clone, Copy, Debug, Default, PartialEq, Eq)]
pub struct Tally {
    pub sent: u32,
    /// Taken, with the row that was published held after it.
    pub taken: u32,
    /// Refused, since one of a later token was taken before.
    pub late: u32,
}

impl Tally {
    pub fn add(&mut self, other: &Tally) {
        self.sent = self.sent.saturating_add(other.sent);
        self.taken = self.taken.saturating_add(other.taken);
        self.late = self.late.saturating_add(other.late);
    }
}

impl Display for Tally {
    fn fmt<W: Write>(&self, f: &mut Formatter<W>) -> fmt::Result {
        let Tally { sent, taken, late } = *self;
        write!(f, "{sent} sent, {taken} taken, {late} refused as late")
    }
}
