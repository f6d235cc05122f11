//! The keys of a key group, as a ring.
ghost use Rattle.std.specs.Prelude.{◌≡◌, ◌≤◌, map, length};
ghost use Rattle.group_keys.specs.Ring.{is_long as is_long_ring, key_sets};
ghost use Rattle.ps_config.specs.Configs.{is_long};
ghost use Rattle.ps_config.specs.Rings.{key_set};
ghost use Rattle.ps_config.specs.Sound.{IsKeyGroup};

use crate::parts::{KeyGroupPart, KeyPart};
use arrayvec::ArrayVec;
use config_tables::Policy;
use group_keys::{KeySet, Ring};

/// The ring of a key group's keys. An accepted configuration's key groups have one each.
pub fn ring_of(group: &KeyGroupPart) -> Ring
    requires { IsKeyGroup group.now }
    ensures long { is_long_ring result ≡ is_long group.now.policy }
    ensures keys { key_sets result ≡ map key_set group.now.key }
{
    match Ring::new(is_long(group.policy), key_sets_of(group.key.as_slice())) {
        Ok(ring) => ring,
        Err(_) => unreachable!(),
    }
}

/// Whether the keys are those of AES-256.
fn is_long(policy: Policy) -> bool
    ensures { result ≡ is_long policy }
{
    matches!(policy, Policy::Aes256)
}

fn key_sets_of(keys: &[KeyPart]) -> ArrayVec<KeySet, 16>
    requires { length keys.now ≤ 16 }
    ensures { result.items ≡ map key_set keys.now }
{
    let mut sets = ArrayVec::new();
    for key in keys {
        sets.push(key_set_of(key));
    }
    sets
}

fn key_set_of(key: &KeyPart) -> KeySet
    ensures { result ≡ key_set key.now }
{
    KeySet {
        token: key.token,
        from: key.from,
        signing: key.signing,
        encrypting: key.encrypting.to_array(),
        nonce: key.nonce,
    }
}
