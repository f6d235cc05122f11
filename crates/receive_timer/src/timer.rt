ghost use Rattle.std.specs.Prelude.{◌≡◌, ℕ, List, [], ◌∷◌};

/// When the last message came, and how long none may come after it (OPC 10000-14, the MessageReceiveTimeout of a
/// DataSetReader). Moments and the limit are of one unit, whichever the caller takes.
#[derive(Clone, Copy, Debug)]
pub struct Timer {
    limit: u64,
    last: Option<u64>,
}

impl Timer {
    ghost use Rattle.receive_timer.specs.Told.{Told, Seen, Cleared, IsTimerOf, TellsDue, is_due};

    /// A timer that runs out `limit` after the last message, or never where that is 0.
    pub fn new(limit: u64) -> Timer
        ensures { IsTimerOf limit [] result }
    {
        Timer { limit, last: None }
    }

    /// A message came.
    pub fn seen(&mut self, now: u64)
        ensures { (limit : ℕ) (told : List Told) → IsTimerOf limit told self.old
            → IsTimerOf limit (Seen now ∷ told) self.new }
    {
        self.last = Some(now);
    }

    /// Forgets the last message: the timer starts anew with the next one.
    pub fn clear(&mut self)
        ensures { (limit : ℕ) (told : List Told) → IsTimerOf limit told self.old
            → IsTimerOf limit (Cleared ∷ told) self.new }
    {
        self.last = None;
    }

    /// Whether the timer has run out.
    pub fn due(&self, now: u64) -> bool
        ensures { (limit : ℕ) (told : List Told) → IsTimerOf limit told self.now
            → result ≡ is_due limit told now }
    {
        match self.last {
            Some(moment) => self.limit != 0 && moment <= now && now - moment >= self.limit,
            None => false,
        }
    }

    /// The moment from which on the timer has run out. None where the limit is 0, where no message came since the timer was cleared,
    /// and where 64 bits don't hold the moment.
    pub fn due_from(&self) -> Option<u64>
        ensures { (limit : ℕ) (told : List Told) → IsTimerOf limit told self.now
            → TellsDue limit told result }
    {
        if self.limit == 0 {
            return None;
        }
        match self.last {
            Some(moment) => moment.checked_add(self.limit),
            None => None,
        }
    }
}
