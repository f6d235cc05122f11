//! Random numbers and bytes.
ghost use Rattle.std.specs.Prelude.{◌<◌};

use std::alloc::{AllocError, Global};

/// Numbers by the shifts 13, 7 and 17 of 64 bits (Marsaglia, Xorshift RNGs, 2003). The same seed gives the same numbers.
#[derive(Clone, Copy)]
pub struct Numbers {
    state: u64,
}

impl Numbers {
    pub fn new(seed: u64) -> Numbers {
        Numbers { state: seed }
    }

    pub fn next(&mut self) -> u64 {
        let mut state = self.state;
        state ^= state << 13;
        state ^= state >> 7;
        state ^= state << 17;
        self.state = state;
        state
    }

    /// A number below `limit`.
    pub fn below(&mut self, limit: u64) -> u64
        requires { 0 < limit }
        ensures { result < limit }
    {
        (self.next() >> 8) % limit
    }

    /// 0, a byte below 16, a byte with about two bits, or any byte, each as often.
    pub fn byte(&mut self) -> u8 {
        let number = self.next();
        let any = (number >> 32 & 0xff) as u8;
        let other = (number >> 40 & 0xff) as u8;
        match number >> 60 & 3 {
            0 => 0,
            1 => any & 0x0f,
            2 => any & other,
            _ => any,
        }
    }

    /// At most `longest` bytes, a number below 4,096.
    pub fn bytes(&mut self, alloc: Global, longest: u64) -> Result<Vec<u8>, AllocError> {
        let mut bytes = Vec::new(alloc);
        let count = self.below(longest % 4096 + 1);
        for _ in 0..count {
            bytes.push(self.byte())?;
        }
        Ok(bytes)
    }
}
