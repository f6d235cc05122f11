//! Datagrams that come from outside.
ghost use Rattle.std.specs.Prelude.{All, ◌<◌, ◌^◌, vec_len};

use case_lines::LineFault;
use std::alloc::Global;

/// Bytes of the longest datagram that a case may inject, far beyond what a link takes.
const LONGEST: usize = 1_048_576;

/// Datagrams that come from outside, each right after the one with a number was sent.
#[derive(Drop)]
pub(crate) struct Injected {
    pub(crate) datagrams: Vec<(u64, Vec<u8>)>,
    ghost short: { All (λ p. vec_len p.1 < 2 ^ 32) datagrams.items },
}

impl Injected {
    /// None.
    pub(crate) fn new(alloc: Global) -> Injected {
        Injected {
            datagrams: Vec::new(alloc),
        }
    }

    /// One more.
    pub(crate) fn push(
        &mut self,
        alloc: Global,
        after: u64,
        datagram: &[u8],
    ) -> Result<(), LineFault> {
        let datagram = datagram.to_vec(alloc)?;
        if datagram.len() > LONGEST {
            return Err(LineFault::Condition);
        }
        self.datagrams.push((after, datagram))?;
        Ok(())
    }
}
