//! The state, and its bytes.
ghost use Rattle.std.specs.Prelude.{◌≡◌, ◌≢◌, IfErr, IfOk, length};
ghost use Rattle.stored_state.specs.States.{IsState, written};
ghost use Rattle.stored_state.specs.declared.state.StoredState.{StoredState as StateValue};

use crate::reading::state_in;
use crate::writing::put_state;
use std::error::Error;
use std::fmt;

/// How many bytes a state has.
pub const STATE_BYTES: usize = 336;

/// How many bytes its fingerprint has.
pub const FINGERPRINT_BYTES: usize = 32;

/// How many numbers it has.
pub const STATE_WORDS: usize = 72;

/// Numbers to go on after, and the fingerprint of the configuration that they are of.
#[derive(Clone, Copy)]
pub struct StoredState {
    pub fingerprint: [u8; 32],
    pub words: [u32; 72],
}

/// The bytes aren't those of a state: they are too few or too many, of another format or version, or their checksum is another.
#[derive(Clone, Copy, Debug, PartialEq, Eq)]
pub struct Damaged;

impl fmt::Display for Damaged {
    ghost use Rattle.std.specs.Prelude.{Some};
    ghost use Rattle.stored_state.specs.States.{damaged_text};

    ghost output = { λ _. Some damaged_text };

    fn fmt<W: fmt::Write>(&self, f: &mut fmt::Formatter<W>) -> fmt::Result {
        f.write_str("the bytes are not those of a state that was stored")
    }
}

impl Error for Damaged {}

impl StoredState {
    /// Its bytes.
    pub fn write(&self) -> [u8; 336]
        ensures { result ≡ written self.now }
    {
        let mut bytes = [0; STATE_BYTES];
        put_state(self, &mut bytes);
        bytes
    }

    /// The state whose bytes these are: just those that `write` gives are taken.
    pub fn read(bytes: &[u8]) -> Result<StoredState, Damaged>
        ensures state { IfOk result IsState }
        ensures ok { IfOk result (λ state. bytes.now ≡ written state) }
        ensures damaged { IfErr result (λ _. (state : StateValue) → IsState state
            → bytes.now ≢ written state) }
    {
        if bytes.len() != STATE_BYTES {
            return Err(Damaged);
        }
        let state = state_in(bytes);
        let again = state.write();
        if again.as_slice() == bytes {
            Ok(state)
        } else {
            Err(Damaged)
        }
    }
}
