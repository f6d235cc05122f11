ghost use Rattle.std.specs.Prelude.{◌≡◌, ◌≢◌, ◌<◌, ◌≤◌, ◌↔◌, length, slice_index, IsOk, IfOk, IfErr, IfSome, IfNone, All, ⊤};
ghost use Rattle.std.specs.List.{IsAmong};
ghost use Rattle.std.specs.Option.{option_copied};
ghost use Rattle.std.specs.List.Sorted.{IsStrictlyIncreasing};
ghost use Rattle.group_keys.specs.KeySets.{tokens, moments, encrypting_length, LengthsFit, Rises, current, with_token};
ghost use Rattle.group_keys.specs.Faults.{IsFirstIndex, IsMisfit, IsNotAbove};
ghost use Rattle.group_keys.specs.InMemory.{AreKeySets};

use crate::KeySet;
use crate::in_memory::tell_sets;
use arrayvec::ArrayVec;
use std::alloc::AllocError;
use std::error::Error;
use std::fmt;

/// Why a list of key sets is no ring. The least of these that holds is given.
#[derive(Clone, Copy, Debug, PartialEq, Eq)]
pub enum RingFault {
    /// The list is empty.
    NoKey,
    /// The first set whose token or moment isn't above that of the set before it.
    NotRising { index: u8 },
    /// The first set isn't used from moment 0.
    FirstLate,
    /// The first set whose encrypting key isn't as long as the ring wants.
    BadLength { index: u8 },
}

impl fmt::Display for RingFault {
    ghost use Rattle.std.specs.Prelude.{Some};
    ghost use Rattle.group_keys.specs.FaultTexts.{ring_fault};

    ghost output = { λ fault. Some (ring_fault fault) };

    fn fmt<W: fmt::Write>(&self, f: &mut fmt::Formatter<W>) -> fmt::Result {
        match *self {
            RingFault::NoKey => f.write_str("the ring has no key set: give it one"),
            RingFault::NotRising { index } => {
                write!(
                    f,
                    "key set {index} has a token or a moment that isn't above the one before: order them"
                )
            }
            RingFault::FirstLate => f.write_str("the first key set isn't used from moment 0"),
            RingFault::BadLength { index } => {
                write!(
                    f,
                    "the encrypting key of key set {index} isn't as long as the policy wants"
                )
            }
        }
    }
}

impl Error for RingFault {}

/// The key sets of a security group: at least one, with rising tokens and rising moments, the
/// first of which is 0, and encrypting keys of one length.
#[derive(Drop)]
pub struct Ring {
    long: bool,
    keys: ArrayVec<KeySet, 16>,
    ghost has_key: { 0 < length keys.items },
    ghost tokens_rise: { IsStrictlyIncreasing (tokens keys.items) },
    ghost moments_rise: { IsStrictlyIncreasing (moments keys.items) },
    ghost first_at_zero: { slice_index (moments keys.items) 0 ≡ 0 },
    ghost lengths_fit: { LengthsFit long keys.items },
}

impl Ring {
    ghost use Rattle.group_keys.specs.Faults.{IsAccepted, IsRefusedBy};
    ghost use Rattle.group_keys.specs.Ring.{is_long, key_sets};

    /// The ring of these sets. A `long` ring has 32-byte keys for AES-256, any other has 16-byte
    /// keys for AES-128.
    pub fn new(long: bool, keys: ArrayVec<KeySet, 16>) -> Result<Ring, RingFault>
        ensures accepted { IsOk result ↔ IsAccepted long keys.items }
        ensures sets { IfOk result (λ ring. key_sets ring ≡ keys.items) }
        ensures length { IfOk result (λ ring. is_long ring ≡ long) }
        ensures refused { IfErr result (IsRefusedBy long keys.items) }
    {
        let sets = keys.as_slice();
        if sets.is_empty() {
            return Err(RingFault::NoKey);
        }
        if let Some(index) = first_not_above(sets) {
            return Err(RingFault::NotRising { index });
        }
        if sets[0].from != 0 {
            return Err(RingFault::FirstLate);
        }
        if let Some(index) = first_misfit(long, sets) {
            return Err(RingFault::BadLength { index });
        }
        Ok(Ring { long, keys })
    }

    /// Whether the encrypting keys are those of AES-256, of 32 bytes.
    pub fn is_long(&self) -> bool
        ensures { result ≡ is_long self.now }
    {
        self.long
    }

    /// The sets, in the order of their tokens and moments.
    pub fn key_sets(&self) -> &[KeySet]
        ensures sets { result.now ≡ key_sets self.now }
        ensures ring { IsAccepted (is_long self.now) (key_sets self.now) }
        ensures few { length result.now ≤ 16 }
        ensures in_memory { AreKeySets (key_sets self.now) }
    {
        let sets = self.keys.as_slice();
        tell_sets(sets);
        sets
    }

    /// The last set whose moment has come at `now`, in milliseconds.
    pub fn at(&self, now: u64) -> &KeySet
        ensures last { current (key_sets self.now) now ≡ Some result.now }
        ensures listed { IsAmong (key_sets self.now) result.now }
        ensures come { result.now.from ≤ now }
        ensures latest { All (λ set. set.from ≤ now → set.from ≤ result.now.from)
            (key_sets self.now) }
        ensures fits { length result.now.encrypting.items ≡ encrypting_length (is_long self.now) }
    {
        match current(self.keys.as_slice(), now) {
            Some(set) => set,
            None => unreachable!(),
        }
    }

    /// The set that has the token, if one has.
    pub fn find(&self, token: u32) -> Option<&KeySet>
        ensures by_token { option_copied result ≡ with_token (key_sets self.now) token }
        ensures listed { IfSome result (λ set. IsAmong (key_sets self.now) set.now) }
        ensures token { IfSome result (λ set. set.now.token ≡ token) }
        ensures none { IfNone result (All (λ set. set.token ≢ token) (key_sets self.now)) }
        ensures fits { IfSome result (λ set.
            length set.now.encrypting.items ≡ encrypting_length (is_long self.now)) }
    {
        with_token(self.keys.as_slice(), token)
    }
}

/// The same key sets for another sender or guard. It takes no memory, so it's always `Ok`.
impl Clone for Ring {
    ghost use Rattle.group_keys.specs.Ring.{is_long, key_sets};

    ghost is_clone = { λ ring copy. (is_long copy ≡ is_long ring) × (key_sets copy ≡ key_sets ring) };

    ghost is_infallible = { λ _. ⊤ };

    fn clone(&self) -> Result<Ring, AllocError> {
        let keys = self.keys.clone()?;
        Ok(Ring {
            long: self.is_long(),
            keys,
        })
    }
}

// The last set whose moment has come.
fn current(sets: &[KeySet], now: u64) -> Option<&KeySet>
    ensures { option_copied result ≡ current sets.now now }
{
    sets.iter().rev().find(|set| set.from <= now)
}

fn with_token(sets: &[KeySet], token: u32) -> Option<&KeySet>
    ensures { option_copied result ≡ with_token sets.now token }
{
    sets.iter().find(|set| set.token == token)
}

// The first set whose token or moment isn't above that of the set before it.
fn first_not_above(sets: &[KeySet]) -> Option<u8>
    requires { length sets.now ≤ 16 }
    ensures none { IfNone result (Rises sets.now) }
    ensures first { IfSome result (IsFirstIndex (IsNotAbove sets.now)) }
{
    for i in 1..sets.len() {
        let (before, next) = (&sets[i - 1], &sets[i]);
        if next.token <= before.token || next.from <= before.from {
            return Some(i as u8);
        }
    }
    None
}

fn encrypting_length(long: bool) -> usize
    ensures { result ≡ encrypting_length long }
{
    if long { 32 } else { 16 }
}

// The first set whose encrypting key isn't as long as the ring wants.
fn first_misfit(long: bool, sets: &[KeySet]) -> Option<u8>
    requires { length sets.now ≤ 16 }
    ensures none { IfNone result (LengthsFit long sets.now) }
    ensures first { IfSome result (IsFirstIndex (IsMisfit long sets.now)) }
{
    for (i, set) in sets.iter().enumerate() {
        if set.encrypting.len() != encrypting_length(long) {
            return Some(i as u8);
        }
    }
    None
}
