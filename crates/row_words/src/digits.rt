//! Bytes in words, the first byte lowest.
ghost use Rattle.std.specs.Prelude.{◌≡◌, ◌*◌, ◌≤◌, length, take};
ghost use Rattle.row_words.specs.Digits.{from_digits};
ghost use Rattle.row_words.specs.Words.{packed, unpacked};

/// Fills the words with the bytes, and with zeros behind them.
pub(crate) fn pack(words: &mut [u64], bytes: &[u8])
    ensures { words.new ≡ packed (length words.old) bytes.now }
{
    let mut rest = bytes;
    for word in words.iter_mut() {
        let (front, back) = rest.split_at(rest.len().min(8));
        *word = word_of(front);
        rest = back;
    }
}

#[inline(always)]
fn word_of(bytes: &[u8]) -> u64
    requires { length bytes.now ≤ 8 }
    ensures { result ≡ from_digits 256 bytes.now }
{
    let mut whole = [0; 8];
    whole[..bytes.len()].copy_from_slice(bytes);
    u64::from_le_bytes(whole)
}

/// Writes the bytes of the words to the front of `bytes`.
pub(crate) fn unpack(bytes: &mut [u8], words: &[u64])
    requires { 8 * length words.now ≤ length bytes.old }
    ensures front { take (8 * length words.now) bytes.new ≡ unpacked words.now }
    ensures len { length bytes.new ≡ length bytes.old }
{
    for (index, word) in words.iter().enumerate() {
        bytes[8 * index..8 * index + 8].copy_from_slice(&word.to_le_bytes());
    }
}
