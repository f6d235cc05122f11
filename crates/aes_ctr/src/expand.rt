// The key expansion (FIPS 197, 5.2).
ghost use Rattle.std.specs.Prelude.{◌≡◌, ℕ, ◌+◌, ◌-◌, ◌*◌, ◌<◌, ◌≤◌, ◌⊎◌, length, bit_xor, slice_index};
ghost use Rattle.aes_ctr.specs.Cipher.{schedule_term, expanded, add_words};

use crate::sbox::sub_word;

fn add_words(v: [u8; 4], w: [u8; 4]) -> [u8; 4]
    ensures { result ≡ add_words v w }
{
    [v[0] ^ w[0], v[1] ^ w[1], v[2] ^ w[2], v[3] ^ w[3]]
}

// The powers of x, from x ^ 0 on, behind a place that isn't used.
static POWERS: [u8; 11] = [
    0x01, 0x01, 0x02, 0x04, 0x08, 0x10, 0x20, 0x40, 0x80, 0x1b, 0x36,
];

#[tactic(auto, unfolding(crate::specs::Cipher::schedule_term))]
fn schedule_term(nk: usize, i: usize, w: [u8; 4]) -> [u8; 4]
    requires { (0 < nk) × (i < 11 * nk) }
    ensures { result ≡ schedule_term nk i w }
{
    if i % nk == 0 {
        add_words(
            sub_word(&[w[1], w[2], w[3], w[0]]),
            [POWERS[i / nk], 0, 0, 0],
        )
    } else if nk == 8 && i % nk == 4 {
        sub_word(&w)
    } else {
        w
    }
}

/// The words of a key of `nk` words, as many as there is room for.
pub fn expand(nk: usize, key: &[u8], words: &mut [[u8; 4]])
    requires some { 0 < nk }
    requires whole { length key.now ≡ 4 * nk }
    requires room { nk ≤ length words.old }
    requires short { length words.old ≤ 11 * nk }
    ensures { words.new ≡ expanded nk key.now (length words.old - nk) }
{
    'first: for i in 0..nk {
        words[i] = [key[4 * i], key[4 * i + 1], key[4 * i + 2], key[4 * i + 3]];
    }
    'more: for i in nk..words.len() {
        let last = words[i - 1];
        let back = words[i - nk];
        words[i] = add_words(back, schedule_term(nk, i, last));
    }
}
