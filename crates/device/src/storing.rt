//! What a publisher stores, so that a life after this one goes on after it.
ghost use Rattle.std.specs.Prelude.{◌≡◌, ◌↔◌, ◌<◌, ◌^◌, All, IfSome, IsTrue, length};
ghost use Rattle.std.specs.Bool.{OnFalse, OnTrue};
ghost use Rattle.stored_state.specs.States.{IsState};
ghost use Rattle.writer_group.specs.Parts.{group_at};
ghost use Rattle.device.specs.Sides.{IsPublisher};
ghost use Rattle.device.specs.Storing.{AreAhead, AreWords, FallsShort, HasSaved, HasStored, IsMessageAt, IsPairAt, IsReleased, IsWordAt, MayHandOver};

use crate::fingerprint::fingerprint_of;
use crate::publisher::Publisher;
use crate::side::Side;
use crate::store::{STATE_KEYGROUPS, Saved, later_of};
use stored_state::{STATE_BYTES, STATE_WORDS, StoredState};

/// How many writers a state has room for in a group.
pub const STATE_WRITERS: usize = 16;

/// Where the message numbers begin: behind a token and a number of each key group.
pub const MESSAGES_AT: usize = 8;

/// How far ahead a message number may be: half of those that count as newer.
const MOST_AHEAD: u32 = 8192;

impl Publisher {
    /// The bytes to store, so that a life that begins with `restore` of them goes on after this one: of each key group the token in use
    /// and a number `ahead` numbers after the last one used, at most 4,294,967,295, or the pair that is in store where that is later; of
    /// each writer a message number as far ahead, at most 8,192. They are in store once `stored` says so.
    pub fn save(&mut self, ahead: u32) -> [u8; 336]
        requires { IsPublisher self.old }
        ensures publisher { IsPublisher self.new }
        ensures saved { HasSaved ahead self.old self.new result }
    {
        let state = state_with(&fingerprint_of(&self.config), &self.words(ahead));
        self.store.saved = Some(Saved { state, ahead });
        state.write()
    }

    /// What `save` gave last is in store: written, and synced. Where nothing was saved, nothing is in store.
    pub fn stored(&mut self)
        requires { IsPublisher self.old }
        ensures publisher { IsPublisher self.new }
        ensures stored { HasStored self.old self.new }
    {
        let saved = self.store.saved;
        self.store.covered = saved;
    }

    /// Whether a program has to save: of some key group the numbers that were used aren't in store, or less than half of what was
    /// reserved ahead is left. It is true also where nothing is in store, if there is a key group. A program that saves as soon as it is
    /// true doesn't have to wait for its store. Message numbers don't count: without a key group it is never true.
    pub fn must_store(&self) -> bool
        requires { IsPublisher self.now }
        ensures must { OnTrue result (FallsShort self.now) }
        ensures not { OnFalse result (AreAhead self.now) }
    {
        for k in 0..self.senders.len() {
            if !self.store.is_ahead(k, &self.senders[k]) {
                return true;
            }
        }
        false
    }

    /// Whether the datagram that waits may be sent: its group isn't secured, or nothing was ever saved, or all numbers that its key group
    /// used are in store. Where it is false a program saves, writes, calls `stored`, and asks again.
    pub fn may_hand_over(&self) -> bool
        requires { IsPublisher self.now }
        ensures may { OnTrue result (MayHandOver self.now) }
        ensures not { OnFalse result (¬ MayHandOver self.now) }
    {
        match self.waiting_keygroup() {
            None => true,
            Some(keygroup) => self.is_released(usize::from(keygroup)),
        }
    }

    /// The key group of the group whose datagrams wait.
    fn waiting_keygroup(&self) -> Option<u8>
        requires { IsPublisher self.now }
        ensures keygroup { result ≡ (group_at self.now.config self.now.from).keygroup }
        ensures within { IfSome result (λ keygroup. keygroup < length self.now.senders.items) }
    {
        let groups = self.config.group.as_slice();
        let index = usize::from(self.from);
        if index >= groups.len() {
            return None;
        }
        groups[index].keygroup
    }

    /// Whether nothing was ever saved, or all numbers of this key group are in store.
    fn is_released(&self, keygroup: usize) -> bool
        requires publisher { IsPublisher self.now }
        requires keygroup { keygroup < length self.now.senders.items }
        ensures { IsTrue result ↔ IsReleased keygroup self.now }
    {
        match &self.store.saved {
            None => true,
            Some(_) => self.store.covers(keygroup, &self.senders[keygroup]),
        }
    }

    /// The numbers of a state that is saved.
    fn words(&self, ahead: u32) -> [u32; 72]
        requires { IsPublisher self.now }
        ensures words { AreWords ahead self.now result }
        ensures fit { All (λ word. word < 2 ^ 32) result }
    {
        let mut words = [0; STATE_WORDS];
        for i in 0..STATE_WORDS {
            words[i] = self.word_at(i, ahead);
        }
        words
    }

    /// The number at this place of a state.
    fn word_at(&self, place: usize, ahead: u32) -> u32
        requires publisher { IsPublisher self.now }
        requires place { place < STATE_WORDS }
        ensures { IsWordAt ahead self.now place result }
    {
        if place < STATE_KEYGROUPS {
            return self.pair_at(place, ahead).0;
        }
        if place < MESSAGES_AT {
            return self.pair_at(place - STATE_KEYGROUPS, ahead).1;
        }
        let rest = place - MESSAGES_AT;
        self.message_at(rest / STATE_WRITERS, rest % STATE_WRITERS, ahead)
    }

    /// The pair of the key group with this index. 0 and 0 where there is none.
    fn pair_at(&self, keygroup: usize, ahead: u32) -> (u32, u32)
        requires { keygroup < STATE_KEYGROUPS }
        ensures { IsPairAt ahead self.now keygroup result }
    {
        if keygroup >= self.senders.len() {
            return (0, 0);
        }
        let (token, used) = self.senders[keygroup].standing();
        let stored = self.store.pair(keygroup);
        later_of((token, used.saturating_add(ahead)), stored)
    }

    /// The message number of the writer with this index in the group with this index. 0 where there is none.
    fn message_at(&self, group: usize, writer: usize, ahead: u32) -> u32
        requires publisher { IsPublisher self.now }
        requires writer { writer < STATE_WRITERS }
        ensures { IsMessageAt ahead self.now group writer result }
    {
        if group >= self.sides.len() {
            return 0;
        }
        match self.sides[group].next_number(&self.config, writer as u8) {
            None => 0,
            Some(number) => (u32::from(number) + ahead.min(MOST_AHEAD)) % 65536,
        }
    }
}

/// The state with this fingerprint and these numbers.
fn state_with(fingerprint: &[u8; 32], words: &[u32; 72]) -> StoredState
    requires { All (λ word. word < 2 ^ 32) words.now }
    ensures state { IsState result }
    ensures fingerprint { result.fingerprint ≡ fingerprint.now }
    ensures words { result.words ≡ words.now }
{
    StoredState {
        fingerprint: *fingerprint,
        words: *words,
    }
}
