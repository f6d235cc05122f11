ghost use Rattle.std.specs.Prelude.{◌≡◌, ◌↔◌, ◌++◌, ◌⊎◌, ⊤, IsTrue, length};
ghost use Rattle.message_guard.specs.Protection.{keys_in, with_stream, cipher_key, message_nonce};
ghost use Rattle.message_guard.specs.Senders.{AreKeysOf};

use crate::Mode;
use aes_ctr::{Key, Key128, Key256, apply_stream};
use group_keys::KeySet;
use hmac_sign::SigningKey;

/// The keys of a token, made ready once: the AES key expanded, the pads of the signing key hashed.
#[derive(Drop)]
pub struct TokenKeys {
    pub token: u32,
    pub nonce: [u8; 4],
    pub signing: SigningKey,
    pub encrypting: Key,
}

impl TokenKeys {
    /// The keys of the set.
    pub fn new(set: &KeySet) -> TokenKeys
        requires { (length set.now.encrypting.items ≡ 16) ⊎ (length set.now.encrypting.items ≡ 32) }
        ensures { result ≡ keys_in set.now }
    {
        TokenKeys {
            token: set.token,
            nonce: set.nonce,
            signing: SigningKey::new(&set.signing),
            encrypting: cipher_key(set.encrypting.as_slice()),
        }
    }

    /// Whether they are the keys of the set, whenever it is used.
    pub fn are_of(&self, set: &KeySet) -> bool
        ensures { IsTrue result ↔ AreKeysOf self.now set.now }
    {
        self.token == set.token
            && self.nonce == set.nonce
            && self.signing.is_of(&set.signing)
            && is_cipher_key(&self.encrypting, set.encrypting.as_slice())
    }

    /// Adds the stream of a message to its payload, where the mode encrypts.
    pub fn add_stream(&self, mode: Mode, nonce: &[u8; 8], first_block: u32, payload: &mut [u8])
        ensures { payload.new ≡ with_stream mode self.now nonce.now first_block payload.old }
    {
        if mode.encrypts() {
            let front = front_of(&self.nonce, nonce);
            apply_stream(&self.encrypting, &front, first_block, payload);
        }
    }
}

/// The nonce of a message.
pub fn message_nonce(random: &[u8; 4], number: u32) -> [u8; 8]
    ensures { result ≡ message_nonce random.now number }
{
    let [a, b, c, d] = *random;
    let [e, f, g, h] = number.to_le_bytes();
    [a, b, c, d, e, f, g, h]
}

fn cipher_key(bytes: &[u8]) -> Key
    requires { (length bytes.now ≡ 16) ⊎ (length bytes.now ≡ 32) }
    ensures { result ≡ cipher_key bytes.now }
{
    if bytes.len() == 32 {
        let mut key = [0; 32];
        key.copy_from_slice(bytes);
        Key::Long(Key256::new(&key))
    } else {
        let mut key = [0; 16];
        key.copy_from_slice(bytes);
        Key::Short(Key128::new(&key))
    }
}

// Whether it is the key of these bytes, of AES-256 where they are 32.
fn is_cipher_key(key: &Key, bytes: &[u8]) -> bool
    ensures { IsTrue result ↔ (key.now ≡ cipher_key bytes.now) }
{
    match key {
        Key::Short(key) => bytes.len() != 32 && key.is_of(bytes),
        Key::Long(key) => bytes.len() == 32 && key.is_of(bytes),
    }
}

// The first 12 bytes of each counter block.
fn front_of(key_nonce: &[u8; 4], nonce: &[u8; 8]) -> [u8; 12]
    ensures { result ≡ key_nonce.now ++ nonce.now }
{
    let [a, b, c, d] = *key_nonce;
    let [e, f, g, h, i, j, k, l] = *nonce;
    [a, b, c, d, e, f, g, h, i, j, k, l]
}
