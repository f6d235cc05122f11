//! What came of sends.

/// What came of the sends of a group.
#[derive(Clone, Copy, Debug)]
pub struct GroupSends {
    /// Those that were done, up to 2^64 - 1.
    pub done: u64,
    /// Whether the last of this tick failed.
    pub is_failing: bool,
}

impl GroupSends {
    ghost use Rattle.std.specs.Prelude.{◌≡◌, not};
    ghost use Rattle.ua_base.specs.Cause.{counted_if};

    /// Before any send.
    pub const NONE: GroupSends = GroupSends {
        done: 0,
        is_failing: false,
    };

    /// One send more, done or failed: the group has a failed send exactly where this one failed.
    pub fn note(&mut self, is_done: bool)
        ensures done { self.new.done ≡ counted_if is_done self.old.done }
        ensures failing { self.new.is_failing ≡ not is_done }
    {
        if is_done {
            self.done = self.done.saturating_add(1);
        }
        self.is_failing = !is_done;
    }
}

/// What came of all sends over the link. A count stops at 2^64 - 1.
#[derive(Clone, Copy, Debug)]
pub struct LinkSends {
    /// Those that were done.
    pub done: u64,
    /// Those that failed.
    pub failed: u64,
}

impl LinkSends {
    ghost use Rattle.std.specs.Prelude.{◌≡◌, not};
    ghost use Rattle.ua_base.specs.Cause.{counted_if};

    /// Before any send.
    pub const NONE: LinkSends = LinkSends { done: 0, failed: 0 };

    /// One send more, done or failed.
    pub fn note(&mut self, is_done: bool)
        ensures done { self.new.done ≡ counted_if is_done self.old.done }
        ensures failed { self.new.failed ≡ counted_if (not is_done) self.old.failed }
    {
        if is_done {
            self.done = self.done.saturating_add(1);
        } else {
            self.failed = self.failed.saturating_add(1);
        }
    }
}
