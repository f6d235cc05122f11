//! Numbers of 16 bits, and places that they are the ends of.
ghost use Rattle.std.specs.Prelude.{◌≡◌, ◌+◌, ◌<◌, ◌^◌};
ghost use Rattle.seq_number.specs.Numbers.{newer, number_of_place};

/// Whether the number `r` is newer than `l`: 1 to 16,384 ahead of it, in a circle of 65,536 numbers (OPC 10000-14, the
/// sequence number of a DataSetMessage).
pub fn newer(r: u16, l: u16) -> bool
    ensures { result ≡ newer r l }
{
    let ahead = 65535 + u32::from(r) - u32::from(l);
    ahead % 65536 < 16384
}

/// The place of the next message in all that a writer sends. A message carries the last 16 bits of its place.
#[derive(Clone, Copy, Debug, PartialEq, Eq)]
pub struct Count {
    pub place: u64,
}

impl Count {
    /// The number that the message at this place carries.
    pub fn wire(&self) -> u16
        ensures { result ≡ number_of_place self.now.place }
    {
        (self.place % 65536) as u16
    }

    /// Goes on to the next place.
    pub fn step(&mut self)
        requires { self.old.place < 2 ^ 63 }
        ensures { self.new.place ≡ self.old.place + 1 }
    {
        self.place += 1;
    }
}
