//! How many parts a reader was given.

/// How many parts were given to readers, and how many of them couldn't be read.
#[derive(Clone, Copy, Debug, PartialEq, Eq)]
pub(crate) struct Tally {
    pub matched: u32,
    pub bad: u32,
}

impl Tally {
    ghost use Rattle.std.specs.Prelude.{◌≡◌, ◌+◌, ◌^◌, ◌<◌};

    pub const NONE: Tally = Tally { matched: 0, bad: 0 };

    /// Those of another.
    pub fn add(&mut self, other: &Tally)
        requires matched { self.old.matched + other.now.matched < 2 ^ 32 }
        requires bad { self.old.bad + other.now.bad < 2 ^ 32 }
        ensures matched { self.new.matched ≡ self.old.matched + other.now.matched }
        ensures bad { self.new.bad ≡ self.old.bad + other.now.bad }
    {
        self.matched += other.matched;
        self.bad += other.bad;
    }
}
