//! Files that are read whole.
ghost use Rattle.std.specs.Prelude.{◌≡◌, ◌+◌, ◌-◌, ◌^◌, ◌<◌, List, ℕ};
ghost use Rattle.ua_base.specs.Cause.{HasCause};
ghost use Rattle.ua_base.specs.Files.{ToldFile, ReadGives};

/// How a read ended. After any answer but `Done` the buffer holds any bytes.
#[derive(Clone, Copy, Debug, PartialEq, Eq)]
pub enum ReadEnd {
    /// The buffer holds the whole file, of at most the limit's bytes.
    Done,
    /// A read failed, or there is no file of that name. Comes only where the count of faults rose.
    Failed,
    /// The file has more bytes than the limit. `read` is the limit and 1: the bytes that show it, whether or not a
    /// folder had to read them.
    Long { read: u64 },
    /// Memory ran out.
    Memory,
}

/// Files that are read whole by their names.
pub trait Folder {
    /// What is told of the file of a name.
    ghost tells: { Self → List ℕ → ToldFile };

    /// How often a read has failed.
    ghost faults: { Self → ℕ };

    /// Reads a whole file of at most `limit` bytes into `into`, which is emptied first.
    fn read_whole(&mut self, name: &str, limit: u64, into: &mut Vec<u8>) -> ReadEnd
        requires { limit < 2 ^ 64 - 1 }
        ensures gives { ReadGives result limit (tells self.old name.now) into.new.items }
        ensures stands { (other : List ℕ) → tells self.new other ≡ tells self.old other }
        ensures cause { HasCause (faults self.old) (faults self.new) (result ≡ ReadEnd.Failed) };
}
