//! The key service of a security group, and what it answers (OPC 10000-14 8.3.2, GetSecurityKeys).
ghost use Rattle.std.specs.Prelude.{◌≡◌, ◌==◌, ◌+◌, ◌<◌, ◌≤◌, ◌↔◌, ℕ, length, IsOk, IfOk, IfErr, IfSome, IfNone};
ghost use Rattle.group_keys.specs.KeySets.{Rises};
ghost use Rattle.group_keys.specs.Faults.{IsFirstIndex};
ghost use Rattle.group_keys.specs.Ring.{key_sets};
ghost use Rattle.key_service.specs.Services.{lifetime_of, IsGap, IsUneven, IsServed};

use crate::copies::copies_of;
use crate::listing::listed;
use crate::service_fault::{KeyFault, ServiceFault};
use arrayvec::ArrayVec;
use dataset_meta::Name32;
use group_keys::{KeySet, Ring};

/// The answer of GetSecurityKeys (OPC 10000-14 8.3.2): keys with consecutive tokens.
#[derive(Drop)]
pub struct Keys {
    /// Whether the policy is `PubSub-Aes256-CTR`, of encrypting keys of 32 bytes, and not `PubSub-Aes128-CTR`, of 16
    /// (SecurityPolicyUri).
    pub long: bool,
    /// The token of the first key (FirstTokenId).
    pub first: u32,
    pub keys: ArrayVec<KeySet, 16>,
    /// The milliseconds until the current key's lifetime ends, and 0 where it is over (TimeToNextKey).
    pub next: u64,
    /// The milliseconds from a key's moment to the next one's (KeyLifetime).
    pub lifetime: u64,
}

/// The key service of one security group: its name, and a ring of two keys or more, of consecutive tokens and even moments.
#[derive(Drop)]
pub struct Service {
    name: Name32,
    ring: Ring,
    lifetime: u64,
    ghost served: { IsServed (key_sets ring) },
    ghost is_lifetime: { lifetime ≡ lifetime_of (key_sets ring) },
}

impl Service {
    ghost use Rattle.key_service.specs.Services.{Refuses};
    ghost use Rattle.group_keys.specs.Faults.{IsAccepted};
    ghost use Rattle.group_keys.specs.Ring.{is_long};
    ghost use Rattle.group_keys.specs.InMemory.{AreKeySets};
    ghost use Rattle.key_service.specs.Laws.{IsReply, IsServedRing};
    ghost use Rattle.key_service.specs.Pulled.{IsPullable};
    ghost use Rattle.key_service.specs.Answers.{name_of, ring_of, answer};

    /// The service of the security group with this name.
    pub fn new(name: Name32, ring: Ring) -> Result<Service, ServiceFault>
        ensures accepted { IsOk result ↔ IsServed (key_sets ring) }
        ensures name { IfOk result (λ service. name_of service ≡ name) }
        ensures ring { IfOk result (λ service. ring_of service ≡ ring) }
        ensures refused { IfErr result (Refuses (key_sets ring)) }
    {
        let sets = ring.key_sets();
        if sets.len() < 2 {
            return Err(ServiceFault::TooFew);
        }
        if let Some(index) = first_gap(sets) {
            return Err(ServiceFault::NotConsecutive { index });
        }
        let lifetime = first_distance(sets);
        if let Some(index) = first_uneven(sets, lifetime) {
            return Err(ServiceFault::Uneven { index });
        }
        Ok(Service {
            name,
            ring,
            lifetime,
        })
    }

    /// The answer of GetSecurityKeys at the moment `now`, in milliseconds: `count` keys, at least one and at most all, from that
    /// with the token `start` (StartingTokenId) on; from the current one where that is 0, and from the first where no key has it.
    pub fn get(&self, now: u64, group: &Name32, start: u32, count: u32) -> Result<Keys, KeyFault>
        ensures found { IsOk result ↔ (group.now ≡ name_of self.now) }
        ensures answer { IfOk result (λ keys. keys ≡ answer (ring_of self.now) now start count) }
        ensures reply { IfOk result IsReply }
        ensures served { IfOk result (λ _. IsServedRing (ring_of self.now)) }
        ensures pullable { start ≡ 0 → IfOk result IsPullable }
    {
        if *group != self.name {
            return Err(KeyFault::NotFound);
        }
        Ok(self.answer(now, start, count))
    }

    fn answer(&self, now: u64, start: u32, count: u32) -> Keys
        ensures answer { result ≡ answer (ring_of self.now) now start count }
        ensures accepted { IsAccepted (is_long (ring_of self.now)) (key_sets (ring_of self.now)) }
        ensures in_memory { AreKeySets (key_sets (ring_of self.now)) }
    {
        let all = self.ring.key_sets();
        let current = self.ring.at(now);
        let token = if start == 0 { current.token } else { start };
        let sets = listed(all, token, count);
        Keys {
            long: self.ring.is_long(),
            first: sets[0].token,
            keys: copies_of(sets),
            next: self.lifetime.saturating_sub(now - current.from),
            lifetime: self.lifetime,
        }
    }
}

fn first_distance(sets: &[KeySet]) -> u64
    requires two { 1 < length sets.now }
    requires rises { Rises sets.now }
    ensures { result ≡ lifetime_of sets.now }
{
    sets[1].from - sets[0].from
}

fn first_gap(sets: &[KeySet]) -> Option<u8>
    requires { length sets.now ≤ 16 }
    ensures none { IfNone result ((k : ℕ) → ¬ IsGap sets.now k) }
    ensures first { IfSome result (IsFirstIndex (IsGap sets.now)) }
{
    for i in 1..sets.len() {
        if !is_next(&sets[i - 1], &sets[i]) {
            return Some(i as u8);
        }
    }
    None
}

fn first_uneven(sets: &[KeySet], lifetime: u64) -> Option<u8>
    requires few { length sets.now ≤ 16 }
    requires lifetime { lifetime ≡ lifetime_of sets.now }
    ensures none { IfNone result ((k : ℕ) → ¬ IsUneven sets.now k) }
    ensures first { IfSome result (IsFirstIndex (IsUneven sets.now)) }
{
    for i in 1..sets.len() {
        if !is_later(&sets[i - 1], &sets[i], lifetime) {
            return Some(i as u8);
        }
    }
    None
}

fn is_next(before: &KeySet, next: &KeySet) -> bool
    ensures { result ≡ (next.now.token == before.now.token + 1) }
{
    u64::from(next.token) == u64::from(before.token) + 1
}

fn is_later(before: &KeySet, next: &KeySet, lifetime: u64) -> bool
    ensures { result ≡ (next.now.from == before.now.from + lifetime) }
{
    before.from <= next.from && next.from - before.from == lifetime
}
