//! What the types of key sets say of them. These functions do nothing: each tells its caller.
ghost use Rattle.std.specs.Prelude.{◌≡◌, ◌<◌, ◌^◌, length, All};
ghost use Rattle.group_keys.specs.InMemory.{IsKeySet};

use crate::KeySet;

/// Each set is one as it is in memory.
pub(crate) fn tell_sets(sets: &[KeySet])
    ensures { All IsKeySet sets.now }
{
    for i in 0..sets.len() {
        tell_set(&sets[i]);
    }
}

fn tell_set(set: &KeySet)
    ensures { IsKeySet set.now }
{
    tell_numbers(set.token, set.from);
    tell_lengths(set.signing, set.nonce);
    tell_bytes(&set.signing);
    tell_bytes(set.encrypting.as_slice());
    tell_bytes(&set.nonce);
}

fn tell_numbers(token: u32, moment: u64)
    ensures token { token < 2 ^ 32 }
    ensures moment { moment < 2 ^ 64 }
{}

fn tell_lengths(signing: [u8; 32], nonce: [u8; 4])
    ensures signing { length signing ≡ 32 }
    ensures nonce { length nonce ≡ 4 }
{}

fn tell_bytes(bytes: &[u8])
    ensures { All (λ byte. byte < 2 ^ 8) bytes.now }
{}
