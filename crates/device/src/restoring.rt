//! How a publisher goes on after a restart.
ghost use Rattle.std.specs.Prelude.{◌≡◌, ◌<◌, ◌≤◌, ◌%◌, ◌/◌, ◌^◌, ℕ, IfErr, IfOk, IfSome, IfNone, OnErr, length};
ghost use Rattle.std.specs.Bool.{OnFalse, OnTrue};
ghost use Rattle.std.specs.List.{HoldsAt};
ghost use Rattle.stored_state.specs.States.{IsState};
ghost use Rattle.stored_state.specs.declared.state.StoredState.{StoredState as StateValue};
ghost use Rattle.device.specs.Restarts.{BeginsOrStays, HasBegunAt, HasGoneOn, HasNoLaterToken, HasLaterToken, HasRestored, HasRestoredFrom, HaveGoneOn, HaveNumbersBegun, IsStateOf, IsTurned, MayNotBegin, MayNotRestore, passed_over};
ghost use Rattle.device.specs.Sides.{IsPublisher};

use crate::fingerprint::fingerprint_of;
use crate::making::copy_of;
use crate::publisher::Publisher;
use crate::store::{Saved, Store, pair_in};
use crate::storing::{MESSAGES_AT, STATE_WRITERS};
use ps_config::a_first_number_keeps_a_configuration_sound;
use std::error::Error;
use std::fmt;
use stored_state::StoredState;

/// How many writers a state has room for.
const WRITERS: usize = 64;

/// Why a state isn't restored.
#[derive(Clone, Copy, Debug, PartialEq, Eq)]
pub enum RestoreEnd {
    /// The bytes aren't those of a state that was stored.
    Damaged,
    /// It is of another configuration: of another PublisherId, or other key groups, groups, writers or data sets.
    OtherConfig,
    /// It has a later token of the key group with this index than its ring has at that moment. Its last ring comes first
    /// (`Publisher::renew`).
    LaterToken { keygroup: u8 },
}

impl fmt::Display for RestoreEnd {
    ghost use Rattle.std.specs.Prelude.{Some};
    ghost use Rattle.device.specs.EndTexts.{end_text};

    ghost output = { λ end. Some (end_text end) };

    fn fmt<W: fmt::Write>(&self, f: &mut fmt::Formatter<W>) -> fmt::Result {
        match self {
            RestoreEnd::Damaged => {
                f.write_str("the bytes are not those of a state that was stored")
            }
            RestoreEnd::OtherConfig => f.write_str("the state is of another configuration"),
            RestoreEnd::LaterToken { keygroup } => write!(
                f,
                "the state has a later token of key group {} than its ring has",
                keygroup
            ),
        }
    }
}

impl Error for RestoreEnd {}

impl Publisher {
    /// The next data message of the writer with this index in the group with this index has this number (FirstNumber): one from a clock,
    /// or one that goes on from the life before. It may be so before the group's first turn: false, and nothing changes, after it, and
    /// where there is no such writer.
    pub fn begin_at(&mut self, group: u8, writer: u8, number: u16) -> bool
        requires { IsPublisher self.old }
        ensures publisher { IsPublisher self.new }
        ensures begun { OnTrue result (HasBegunAt group writer number self.old self.new) }
        ensures not { OnFalse result (self.new ≡ self.old) }
        ensures refused { OnFalse result (MayNotBegin group writer self.old) }
    {
        let index = usize::from(group);
        if index >= self.sides.len() {
            return false;
        }
        if !self.sides[index].has_writer(&self.config, writer) {
            return false;
        }
        if !self.sides[index].is_unturned(&self.config) {
            return false;
        }
        self.sides[index].begin_at(&self.config, writer, number);
        self.config.begin_at(group, writer, number);
        a_first_number_keeps_a_configuration_sound();
        true
    }

    /// Goes on after the life that these bytes are of, as `save` gave them. Each key group has the last key set of its ring whose moment
    /// has come at `now`, in milliseconds, and goes on behind the number that was stored, or behind 0 where that key set's token is a
    /// later one. Each writer begins at its message number, unless its group had a turn. What is restored counts as in store, and
    /// nothing as left of what was reserved: `must_store` is true then. Where it is refused nothing changes.
    pub fn restore(&mut self, now: u64, bytes: &[u8]) -> Result<(), RestoreEnd>
        requires { IsPublisher self.old }
        ensures publisher { IsPublisher self.new }
        ensures restored { IfOk result (λ _. HasRestoredFrom now bytes.now self.old self.new) }
        ensures not { OnErr result (self.new ≡ self.old) }
        ensures refused { IfErr result (MayNotRestore now bytes.now self.old) }
    {
        match self.state_of(bytes) {
            Err(end) => Err(end),
            Ok(state) => match self.later_token(now, &state) {
                Some(keygroup) => Err(RestoreEnd::LaterToken { keygroup }),
                None => {
                    self.go_on_after(now, state);
                    Ok(())
                }
            },
        }
    }

    /// Goes on after the state, which has no later token than the rings have.
    fn go_on_after(&mut self, now: u64, state: StoredState)
        requires publisher { IsPublisher self.old }
        requires no_later { HasNoLaterToken now state.words self.old }
        ensures publisher { IsPublisher self.new }
        ensures restored { HasRestored now state self.old self.new }
    {
        self.begin_all(&state);
        self.go_on_all(now, &state);
        let saved = Some(Saved { state, ahead: 1 });
        self.store = Store {
            saved,
            covered: saved,
        };
    }

    /// The state that these bytes are of, where it is one of the configuration.
    fn state_of(&self, bytes: &[u8]) -> Result<StoredState, RestoreEnd>
        ensures state { IfOk result (IsStateOf self.now.config bytes.now) }
        ensures refused { (now : ℕ) → IfErr result (MayNotRestore now bytes.now self.now) }
    {
        let Ok(state) = StoredState::read(bytes) else {
            return Err(RestoreEnd::Damaged);
        };
        if state.fingerprint != fingerprint_of(&self.config) {
            return Err(RestoreEnd::OtherConfig);
        }
        Ok(state)
    }

    /// The first key group of which the state has a later token than its ring has at `now`.
    fn later_token(&self, now: u64, state: &StoredState) -> Option<u8>
        requires { IsPublisher self.now }
        ensures within { IfSome result (λ keygroup. keygroup < length self.now.senders.items) }
        ensures later { IfSome result (λ keygroup.
            HasLaterToken now keygroup state.now.words self.now) }
        ensures none { IfNone result (HasNoLaterToken now state.now.words self.now) }
    {
        for k in 0..self.senders.len() {
            let (token, _) = pair_in(&state.words, k);
            if self.rings[k].at(now).token < token {
                return Some(k as u8);
            }
        }
        None
    }

    /// Each writer begins at the state's number, where its group had no turn.
    fn begin_all(&mut self, state: &StoredState)
        requires { IsPublisher self.old }
        ensures publisher { IsPublisher self.new }
        ensures begun { HaveNumbersBegun 64 state.now.words self.old self.new }
    {
        for place in 0..WRITERS {
            self.begin_place(place, state.words[MESSAGES_AT + place]);
        }
    }

    /// The writer at this place of 64, 16 a group, begins at the number, of which 16 bits count, where its group had no turn.
    fn begin_place(&mut self, place: usize, word: u32)
        requires publisher { IsPublisher self.old }
        requires place { place < WRITERS }
        ensures publisher { IsPublisher self.new }
        ensures begun { BeginsOrStays (place / 16) (place % 16) (word % 2 ^ 16) self.old self.new }
    {
        let group = (place / STATE_WRITERS) as u8;
        let writer = (place % STATE_WRITERS) as u8;
        self.begin_at(group, writer, (word % 65_536) as u16);
    }

    /// Each key group goes on behind the state's pair.
    fn go_on_all(&mut self, now: u64, state: &StoredState)
        requires { IsPublisher self.old }
        ensures publisher { IsPublisher self.new }
        ensures gone { HaveGoneOn now (length self.old.senders.items) state.now.words
            self.old self.new }
    {
        for k in 0..self.senders.len() {
            self.go_on_behind(k, now, pair_in(&state.words, k));
        }
    }

    /// The key group with this index goes on behind the pair with its own ring, unless it used more numbers of its own.
    fn go_on_behind(&mut self, keygroup: usize, now: u64, pair: (u32, u32))
        requires publisher { IsPublisher self.old }
        requires keygroup { keygroup < length self.old.senders.items }
        ensures publisher { IsPublisher self.new }
        ensures count { length self.new.senders.items ≡ length self.old.senders.items }
        ensures gone { HoldsAt (HasGoneOn now keygroup pair self.old self.new)
            self.old.senders.items keygroup }
    {
        let ring = copy_of(&self.rings[keygroup]);
        let used = passed_over(pair, ring.at(now).token);
        self.go_on(keygroup as u8, now, used, ring);
    }
}

/// How many numbers are passed over: those of the pair under its token, and none under another.
fn passed_over(pair: (u32, u32), token: u32) -> u32
    ensures { result ≡ passed_over pair token }
{
    if token == pair.0 { pair.1 } else { 0 }
}
