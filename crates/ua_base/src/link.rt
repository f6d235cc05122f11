//! Datagrams.
ghost use Rattle.std.specs.Prelude.{◌≡◌, ◌≢◌, ◌<◌, ◌^◌, ℕ, length, Option, Bool, IsTrue, IsSome, Some};
ghost use Rattle.ua_base.specs.Cause.{HasCause, Rose, counted_if};
ghost use Rattle.ua_base.specs.Fates.{AreFates};
ghost use Rattle.ua_base.specs.Journal.{LinkState, Tells};
ghost use Rattle.ua_base.specs.Links.{Making, Opening, TellsOn, KeepsLink};
ghost use Rattle.ua_base.specs.Net.{Opens, is_done, Sends, Queues, Receives, FitsBuffer, nothings_in};

/// What happens to a datagram on its way. `after` is the number of a later datagram.
#[derive(Clone, Copy, Debug, PartialEq, Eq)]
pub enum Fate {
    /// It never comes.
    Drop,
    /// It comes so often, 2 to 8 times.
    Repeat { times: u8 },
    /// It comes right after that datagram was sent.
    Hold { after: u64 },
    /// It comes, and once more right after that datagram was sent.
    Again { after: u64 },
}

/// How an opening ended. A refused one leaves the link as it was, its count of faults aside.
#[derive(Clone, Copy, Debug, PartialEq, Eq)]
pub enum Opened {
    /// It is open, its journal is empty, and nothing waits.
    Done,
    /// The port can't be had. Comes only where the count of faults rose.
    Failed,
    /// Memory ran out.
    Memory,
}

/// How a send ended.
#[derive(Clone, Copy, Debug, PartialEq, Eq)]
pub enum Sent {
    /// The whole datagram was sent. That it comes isn't said.
    Done,
    /// It wasn't sent, or not whole. Comes only where the count of faults rose.
    Failed,
    /// Memory ran out, and nothing was sent.
    Memory,
}

/// How a receive ended.
#[derive(Clone, Copy, Debug, PartialEq, Eq)]
pub enum Received {
    /// The datagram is the first so many bytes of the buffer.
    Datagram(u32),
    /// None was ready. The buffer holds any bytes.
    Nothing,
    /// A datagram of so many bytes, more than the buffer holds, was taken and dropped.
    Long(u32),
    /// None was taken: what waits stays. Comes only where the count of faults rose.
    Failed,
}

/// Sends and receives datagrams of less than 2^32 bytes, once it is open.
pub trait Link {
    /// Whether a send may answer want of memory: the same for all links of the type.
    ghost takes_memory: { Bool };

    /// The journal and what waits, where they are told.
    ghost told: { Self → Option LinkState };

    /// How many answers `Nothing` more it tells for sure, while it tells.
    ghost patience: { Self → ℕ };

    /// How often the link has failed.
    ghost faults: { Self → ℕ };

    /// What it was opened with; nothing before an opening that was Done.
    ghost opened_with: { Self → Option Opening };

    /// What it was made to do, whatever it is opened with. No call changes it.
    ghost made: { Self → Making };

    /// How many openings were Done. The count stands still at 2^64 - 1.
    ghost openings: { Self → ℕ };

    /// Opens the link at a port. Fates name datagrams by their numbers, counted from 0 by the calls of `send`
    /// since this opening. A link may leave them alone.
    fn open(&mut self, port: u16, fates: &[(u64, Fate)]) -> Opened
        requires fates { AreFates fates.now }
        ensures empty { Tells (told self.old) (told self.new) (Opens result) }
        ensures opening { result ≡ Opened.Done
            → opened_with self.new ≡ Some (record { port = port; fates = fates.now }) }
        ensures refused { result ≢ Opened.Done
            → (told self.new ≡ told self.old) × (opened_with self.new ≡ opened_with self.old) }
        ensures cause { HasCause (faults self.old) (faults self.new) (result ≡ Opened.Failed) }
        ensures lasts { TellsOn told patience 0 self.old self.new }
        ensures making { made self.new ≡ made self.old }
        ensures counted { openings self.new ≡ counted_if (is_done result) (openings self.old) };

    /// Each answer but `Memory` is an entry of the journal.
    fn send(&mut self, datagram: &[u8]) -> Sent
        requires open { IsSome (opened_with self.old) }
        requires short { length datagram.now < 2 ^ 32 }
        ensures entry { Tells (told self.old) (told self.new) (Sends datagram.now result) }
        ensures waiting { Tells (told self.old) (told self.new) (Queues result) }
        ensures link { KeepsLink told patience opened_with faults made openings
            0 self.old self.new }
        ensures only_where_taken { result ≡ Sent.Memory → IsTrue takes_memory }
        ensures cause { result ≡ Sent.Failed → Rose (faults self.old) (faults self.new) };

    /// Each answer is an entry of the journal. A datagram stands in the first bytes of `into`.
    fn receive(&mut self, into: &mut [u8]) -> Received
        requires { IsSome (opened_with self.old) }
        ensures entry { Tells (told self.old) (told self.new) (Receives result into.new) }
        ensures sizes { FitsBuffer result into.new }
        ensures link { KeepsLink told patience opened_with faults made openings
            (nothings_in result) self.old self.new }
        ensures cause { result ≡ Received.Failed → Rose (faults self.old) (faults self.new) };
}
