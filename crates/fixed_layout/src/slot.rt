//! Slots.

/// The place that a writer's DataSetMessage has in each datagram of its group (OPC 10000-14, periodic fixed data layout).
#[derive(Clone, Copy, Debug, Default, PartialEq, Eq)]
pub struct Slot {
    /// Where it begins, in bytes from the datagram's first.
    pub offset: u32,
    /// How many bytes it has.
    pub size: u32,
    /// How many bytes what stands in it takes.
    pub need: u32,
}

impl Slot {
    ghost use Rattle.std.specs.Prelude.{◌≡◌, ◌+◌, ◌<◌};
    ghost use Rattle.fixed_layout.specs.Slots.{end_of};

    /// Where it ends, in bytes from the datagram's first.
    #[inline(always)]
    pub(crate) fn end(&self) -> u64
        ensures end { result ≡ end_of self.now }
        ensures small { result < 8589934592 }
    {
        u64::from(self.offset) + u64::from(self.size)
    }
}
