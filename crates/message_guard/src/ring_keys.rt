ghost use Rattle.std.specs.Prelude.{◌≡◌, ◌⊎◌, ◌≤◌, List, length, map, is_some, IfSome, Some, option_map};
ghost use Rattle.std.specs.Option.{option_copied};
ghost use Rattle.group_keys.specs.KeySets.{encrypting_length, with_token};
ghost use Rattle.group_keys.specs.Ring.{is_long, key_sets};
ghost use Rattle.message_guard.specs.Opening.{is_signed, without_stream};
ghost use Rattle.message_guard.specs.Protection.{keys_in, keys_with, with_stream};
ghost use Rattle.message_guard.specs.declared.keys.TokenKeys.{TokenKeys};

use crate::Mode;
use crate::keys::TokenKeys;
use crate::sender::SIGNATURE_BYTES;
use group_keys::{KeySet, Ring};
use hmac_sign::matches;
use std::marker::Model;

/// The keys of a ring's sets, in their order. Those of one token stand ready; those of another are made where they are used.
#[derive(Drop)]
pub struct RingKeys {
    ring: Ring,
    ready: TokenKeys,
}

impl Model for RingKeys {
    ghost Value = { List TokenKeys };

    ghost view = { λ a. map keys_in (key_sets a.ring) };

    ghost invariant = { λ a. keys_with (map keys_in (key_sets a.ring)) a.ready.token ≡ Some a.ready };
}

impl RingKeys {
    /// The keys of the ring's sets. Those of the first stand ready.
    #[tactic(auto, using(crate::proofs::Rings::found_known))]
    pub fn new(ring: Ring) -> RingKeys
        ensures { result ≡ map keys_in (key_sets ring) }
    {
        let ready = TokenKeys::new(first(&ring));
        RingKeys { ring, ready }
    }

    /// Goes on with the keys of another ring. Those that stand ready stay so, if it has them.
    #[tactic(auto, using(crate::proofs::Rings::found_known, crate::proofs::Rings::keys_of))]
    pub fn renew(&mut self, ring: Ring)
        ensures { self.new ≡ map keys_in (key_sets ring) }
    {
        let set = set_for(&ring, self.ready.token);
        if !self.ready.are_of(set) {
            self.ready = TokenKeys::new(set);
        }
        self.ring = ring;
    }

    /// Makes the keys of the token ready, if a set has it.
    pub fn make_ready(&mut self, token: u32)
        ensures { self.new ≡ self.old }
    {
        if token != self.ready.token {
            self.take_other(token);
        }
    }

    // (apart, so that room for keys is taken at a change of the token alone)
    #[inline(never)]
    #[tactic(auto, using(crate::proofs::Rings::found_known))]
    fn take_other(&mut self, token: u32)
        ensures { self.new ≡ self.old }
    {
        if let Some(set) = self.ring.find(token) {
            self.ready = TokenKeys::new(set);
        }
    }

    /// Whether a set has the token.
    pub fn has(&self, token: u32) -> bool
        ensures { result ≡ is_some (keys_with self.now token) }
    {
        token == self.ready.token || self.find(token).is_some()
    }

    /// Whether the datagram is signed under the token.
    pub fn is_signed(&self, token: u32, datagram: &[u8]) -> bool
        requires { 32 ≤ length datagram.now }
        ensures { result ≡ is_signed (keys_with self.now token) datagram.now }
    {
        let (body, end) = datagram.split_at(datagram.len() - SIGNATURE_BYTES);
        let mut signature = [0; SIGNATURE_BYTES];
        signature.copy_from_slice(end);
        if token == self.ready.token {
            return self.ready.signing.matches(body, &signature);
        }
        match self.find(token) {
            Some(set) => matches(&set.signing, body, &signature),
            None => false,
        }
    }

    /// Adds the stream of a message under the token to its payload, where the mode encrypts.
    pub fn add_stream(
        &self,
        token: u32,
        mode: Mode,
        nonce: &[u8; 8],
        first_block: u32,
        payload: &mut [u8],
    )
        ensures { payload.new
            ≡ without_stream mode (keys_with self.now token) nonce.now first_block payload.old }
    {
        if token == self.ready.token {
            self.ready.add_stream(mode, nonce, first_block, payload);
        } else if let Some(set) = self.find(token) {
            add_stream_of(set, mode, nonce, first_block, payload);
        }
    }

    // The set that has the token.
    fn find(&self, token: u32) -> Option<&KeySet>
        ensures keys { keys_with self.now token ≡ option_map keys_in (option_copied result) }
        ensures fits { IfSome result (λ set. (length set.now.encrypting.items ≡ 16)
            ⊎ (length set.now.encrypting.items ≡ 32)) }
    {
        self.ring.find(token)
    }
}

// The set that has the token, or else the first.
fn set_for(ring: &Ring, token: u32) -> &KeySet
    ensures found { with_token (key_sets ring.now) result.now.token ≡ Some result.now }
    ensures fits { length result.now.encrypting.items ≡ encrypting_length (is_long ring.now) }
{
    match ring.find(token) {
        Some(set) => set,
        None => first(ring),
    }
}

fn first(ring: &Ring) -> &KeySet
    ensures found { with_token (key_sets ring.now) result.now.token ≡ Some result.now }
    ensures fits { length result.now.encrypting.items ≡ encrypting_length (is_long ring.now) }
{
    ring.at(0)
}

// Makes the keys of the set for this message alone. (apart, so that room for them is taken here alone)
#[inline(never)]
fn add_stream_of(set: &KeySet, mode: Mode, nonce: &[u8; 8], first_block: u32, payload: &mut [u8])
    requires { (length set.now.encrypting.items ≡ 16) ⊎ (length set.now.encrypting.items ≡ 32) }
    ensures { payload.new ≡ with_stream mode (keys_in set.now) nonce.now first_block payload.old }
{
    TokenKeys::new(set).add_stream(mode, nonce, first_block, payload);
}
