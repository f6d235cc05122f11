//! Where bytes are written.
ghost use Rattle.std.specs.Prelude.{◌≡◌, List, ℕ, Option};
ghost use Rattle.ua_base.specs.Cause.{HasCause};
ghost use Rattle.ua_base.specs.Output.{WriteGives};

/// How a write ended.
#[derive(Clone, Copy, Debug, PartialEq, Eq)]
pub enum WriteEnd {
    /// All of the bytes were written.
    Done,
    /// A prefix was written, which may be empty. Comes only where the count of faults rose.
    Failed,
}

/// Takes bytes, one piece after another.
pub trait Sink {
    /// The bytes written so far, where they are told.
    ghost written: { Self → Option (List ℕ) };

    /// How often a write has failed.
    ghost faults: { Self → ℕ };

    /// `Done` appends all of the bytes, and `Failed` a prefix of them.
    fn write(&mut self, bytes: &[u8]) -> WriteEnd
        ensures gives { WriteGives result (written self.old) (written self.new) bytes.now }
        ensures cause { HasCause (faults self.old) (faults self.new) (result ≡ WriteEnd.Failed) };
}
