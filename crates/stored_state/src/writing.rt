//! The bytes of a state.
ghost use Rattle.std.specs.Prelude.{◌≡◌, length};
ghost use Rattle.stored_state.specs.States.{words_bytes, written};

use crate::state::{FINGERPRINT_BYTES, STATE_BYTES, StoredState};
use byteorder::{ByteOrder, LittleEndian};
use sha2::{Digest, Sha256};

/// "UAPS", the version of the format, and two zeros.
const HEAD: [u8; 8] = [85, 65, 80, 83, 1, 0, 0, 0];

/// Where the numbers begin, and where the checksum does.
const WORDS_AT: usize = 40;

const CHECKSUM_AT: usize = 328;

/// Lays the state's bytes.
pub(crate) fn put_state(state: &StoredState, bytes: &mut [u8; 336])
    ensures { bytes.new ≡ written state.now }
{
    bytes[..8].copy_from_slice(&HEAD);
    bytes[8..WORDS_AT].copy_from_slice(&state.fingerprint);
    put_words(&state.words, &mut bytes[WORDS_AT..CHECKSUM_AT]);
    let sum = Sha256::digest(&bytes[..CHECKSUM_AT]);
    bytes[CHECKSUM_AT..].copy_from_slice(&sum[..8]);
}

/// Lays each number in 4 bytes, little-endian.
fn put_words(words: &[u32; 72], bytes: &mut [u8])
    requires { length bytes.old ≡ 288 }
    ensures { bytes.new ≡ words_bytes words.now }
{
    for i in 0..72 {
        LittleEndian::write_u32(&mut bytes[4 * i..], words[i]);
    }
}
