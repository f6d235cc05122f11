//! Many answers in one line: how often each kind of them came.
use std::alloc::{AllocError, Global};
use std::fmt;

/// How often each kind of answer came, in the order of their first ones. The checksum is FNV-1a of all answers, each with a line
/// feed behind it.
#[derive(Drop)]
pub struct Tally {
    kinds: Vec<Counted>,
    checksum: u32,
}

/// A kind of answer, and how often it came.
#[derive(Drop)]
struct Counted {
    name: String,
    times: u32,
}

impl Tally {
    pub fn new(alloc: Global) -> Tally {
        Tally {
            kinds: Vec::new(alloc),
            checksum: 0x811c_9dc5,
        }
    }

    /// One answer more, of the kind of this name.
    pub fn add(&mut self, alloc: Global, name: &str, answer: &str) -> Result<(), AllocError> {
        for byte in answer.as_bytes() {
            self.mix(*byte);
        }
        self.mix(b'\n');
        for kind in &mut self.kinds {
            if kind.name.as_str() == name {
                kind.times = kind.times.saturating_add(1);
                return Ok(());
            }
        }
        let name = String::from_str(alloc, name)?;
        self.kinds.push(Counted { name, times: 1 })?;
        Ok(())
    }

    fn mix(&mut self, byte: u8) {
        self.checksum = (self.checksum ^ u32::from(byte)).wrapping_mul(0x0100_0193);
    }
}

impl fmt::Display for Tally {
    fn fmt<W: fmt::Write>(&self, f: &mut fmt::Formatter<W>) -> fmt::Result {
        for kind in &self.kinds {
            write!(f, "{} {}, ", kind.name, kind.times)?;
        }
        write!(f, "checksum 0x{:08x}", self.checksum)
    }
}
