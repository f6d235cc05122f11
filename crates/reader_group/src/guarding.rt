//! The guard of a read group, and which number it has from a datagram.
ghost use Rattle.std.specs.Prelude.{◌≡◌, ◌<◌, [], ◌∷◌, length, map, replicate, slice_index_or, Contains, IfOk};
ghost use Rattle.group_keys.specs.Ring.{key_sets};
ghost use Rattle.message_guard.specs.Guards.{IsGuardOf, setup_of};
ghost use Rattle.message_guard.specs.Protection.{keys_in};
ghost use Rattle.ps_config.specs.Headers.{mode_of};
ghost use Rattle.ps_config.specs.Sound.{IsSound};
ghost use Rattle.reader_group.specs.LastTaken.{pair_on};
ghost use Rattle.reader_group.specs.Plain.{stamp_by};
ghost use Rattle.reader_group.specs.Settings.{no_keys, setup_by};

use crate::receipt::TokenNumber;
use arrayvec::ArrayVec;
use group_keys::{KeySet, Ring};
use message_guard::{Guard, Pass1};
use ps_config::{Config, KeyGroupPart, ReadGroupPart, Security, mode_of, ring_of};
use std::alloc::Global;
use ua_base::NoMemory;

/// The guard of a read group, by its key group if it has one. It stays where it lies: it is too large to be moved with its group.
#[inline(never)]
pub(crate) fn new_guard(
    alloc: Global,
    config: &Config,
    group: &ReadGroupPart,
) -> Result<Box<Guard>, NoMemory>
    requires sound { IsSound config.now }
    requires group { Contains config.now.readgroup group.now }
    ensures setup { IfOk result (λ guard.
        setup_of guard.value ≡ setup_by config.now group.now group.now.keygroup) }
    ensures none_accepted { IfOk result (λ guard. IsGuardOf [] guard.value) }
{
    let ring = ring_for(config, group);
    let first_block = first_block_of(config, group);
    match Box::new(
        alloc,
        Guard::new(ring, mode_of(group.security), first_block),
    ) {
        Ok(guard) => Ok(guard),
        Err(_) => Err(NoMemory),
    }
}

// The ring of its key group, or one that an unsecured group never uses.
fn ring_for(config: &Config, group: &ReadGroupPart) -> Ring
    requires sound { IsSound config.now }
    requires group { Contains config.now.readgroup group.now }
    ensures { map keys_in (key_sets result)
        ≡ (setup_by config.now group.now group.now.keygroup).keys }
{
    match group.keygroup {
        None => unused_ring(),
        Some(index) => ring_of(keys_at(config, index)),
    }
}

fn first_block_of(config: &Config, group: &ReadGroupPart) -> u32
    requires sound { IsSound config.now }
    requires group { Contains config.now.readgroup group.now }
    ensures { result ≡ (setup_by config.now group.now group.now.keygroup).first_block }
{
    match group.keygroup {
        None => 0,
        Some(index) => keys_at(config, index).first_block,
    }
}

/// The number that a sender gave a datagram, where it is secured.
pub(crate) fn stamp_of(security: Security, number: u32) -> Option<u32>
    ensures { result ≡ stamp_by (mode_of security) number }
{
    match security {
        Security::None => None,
        Security::Sign | Security::Encrypt => Some(number),
    }
}

/// The token and the number of a datagram that is accepted where the group is secured, else those before.
pub(crate) fn pair_on(
    security: Security,
    pass: &Pass1,
    before: Option<TokenNumber>,
) -> Option<TokenNumber>
    ensures { result ≡ pair_on (mode_of security) pass.now before }
{
    match security {
        Security::None => before,
        Security::Sign | Security::Encrypt => Some(TokenNumber {
            token: pass.token,
            number: pass.number,
        }),
    }
}

fn keys_at(config: &Config, index: u8) -> &KeyGroupPart
    requires { index < length config.now.keygroup }
    ensures { result.now ≡ slice_index_or config.now.keygroup index result.now }
{
    &config.keygroup.as_slice()[usize::from(index)]
}

// A ring for the guard of an unsecured group, which never uses it.
#[tactic(auto, unfolding(crate::specs::Settings::no_keys))]
fn unused_ring() -> Ring
    ensures { map keys_in (key_sets result) ≡ no_keys ∷ [] }
{
    let mut keys = ArrayVec::new();
    keys.push(KeySet {
        token: 0,
        from: 0,
        signing: [0; 32],
        encrypting: zero_key(),
        nonce: [0; 4],
    });
    match Ring::new(false, keys) {
        Ok(ring) => ring,
        Err(_) => unreachable!(),
    }
}

// A key of 16 zeros.
fn zero_key() -> ArrayVec<u8, 32>
    ensures { result.items ≡ replicate 16 0 }
{
    let mut key = ArrayVec::new();
    match key.try_extend_from_slice(&[0; 16]) {
        Ok(()) => key,
        // there is room for 32
        Err(_) => unreachable!(),
    }
}
