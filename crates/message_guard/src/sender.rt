ghost use Rattle.std.specs.Prelude.{◌≡◌, ◌≢◌, ℕ, ◌+◌, ◌-◌, ◌<◌, ◌≤◌, ◌↔◌, length, IsTrue, Some, None, option_map, ⊤};
ghost use Rattle.std.specs.Borrow.{sem};
ghost use Rattle.group_keys.specs.Faults.{IsAccepted};
ghost use Rattle.group_keys.specs.KeySets.{current};
ghost use Rattle.group_keys.specs.Ring.{key_sets};
ghost use Rattle.uadp_header.specs.Headers.{security_in, if_there};
ghost use Rattle.uadp_header.specs.Reading.{IsSecured};
ghost use Rattle.uadp_header.specs.Spelling.{IsSendersSecurity};
ghost use Rattle.message_guard.specs.Modes.{is_secured};
ghost use Rattle.message_guard.specs.Protection.{keys_in};
ghost use Rattle.message_guard.specs.Senders.{SenderState, turned, renewed, advanced, front_value, KeepsToken, made_of, numbers_left, IsSender, MayProtect};

use crate::Mode;
use crate::keys::{TokenKeys, message_nonce};
use group_keys::Ring;
use std::marker::Model;
use uadp_header::{SecurityPart, read_header};

/// The length of a signature in bytes.
pub(crate) const SIGNATURE_BYTES: usize = 32;

const LAST_NUMBER: u32 = 4_294_967_295;

const RESERVE: u32 = 1024;

/// Numbers the messages of a key group's groups, and protects their datagrams. All groups that use the keys share
/// it, so that no token and number come twice.
#[derive(Drop)]
pub struct Sender {
    ring: Ring,
    keys: TokenKeys,
    random: [u8; 4],
    first_block: u32,
    used: u32,
    // The mode of the last front, if no token came since.
    fronted: Option<Mode>,
    // The nonce of the last front.
    nonce: [u8; 8],
}

impl Model for Sender {
    ghost Value = { SenderState };

    ghost view = { λ a. record {
      sets = key_sets a.ring;
      keys = a.keys;
      random = a.random;
      first_block = a.first_block;
      used = a.used;
      fronted = a.fronted;
    } };
}

impl Sender {
    ghost use Rattle.message_guard.specs.Lending.{LendsFront};

    /// The sender that goes on after `used` numbers under the token of moment 0. `random` begins each nonce, before the
    /// number as a UInt32, little-endian, and the block counter of each message, big-endian, begins at `first_block`.
    pub fn new(ring: Ring, random: [u8; 4], first_block: u32, used: u32) -> Sender
        ensures sets { result.sets ≡ key_sets ring }
        ensures token { option_map keys_in (current (key_sets ring) 0) ≡ Some result.keys }
        ensures random { result.random ≡ random }
        ensures first_block { result.first_block ≡ first_block }
        ensures used { result.used ≡ used }
        ensures unfronted { result.fronted ≡ None }
        ensures sender { IsSender result }
    {
        Sender::resume(ring, random, first_block, 0, used)
    }

    /// The sender that goes on after a restart, as `new` does, but with the last key set whose moment has come at `now`, in
    /// milliseconds. It sends no token and number of its life before where its token isn't lower than the one that `standing` told
    /// last, and, under the same token, `used` isn't below the number that it told.
    pub fn resume(ring: Ring, random: [u8; 4], first_block: u32, now: u64, used: u32) -> Sender
        ensures sets { result.sets ≡ key_sets ring }
        ensures token { option_map keys_in (current (key_sets ring) now) ≡ Some result.keys }
        ensures random { result.random ≡ random }
        ensures first_block { result.first_block ≡ first_block }
        ensures used { result.used ≡ used }
        ensures unfronted { result.fronted ≡ None }
        ensures sender { IsSender result }
    {
        let keys = TokenKeys::new(ring.at(now));
        let nonce = message_nonce(&random, used);
        Sender {
            ring,
            keys,
            random,
            first_block,
            used,
            fronted: None,
            nonce,
        }
    }

    /// Goes on to the last key set whose moment has come at `now`, in milliseconds, and never back. True where the
    /// token changed: then the numbers begin at 1.
    pub fn turn_to(&mut self, now: u64) -> bool
        ensures state { self.new ≡ turned self.old now }
        ensures changed { IsTrue result ↔ (self.new.keys.token ≢ self.old.keys.token) }
        ensures rises { self.old.keys.token ≤ self.new.keys.token }
        ensures restarts { IsTrue result → self.new.used ≡ 0 }
    {
        let set = self.ring.at(now);
        if set.token <= self.keys.token {
            return false;
        }
        self.keys = TokenKeys::new(set);
        self.used = 0;
        self.fronted = None;
        true
    }

    /// The token in use, and the last number used under it: what a device stores so that it goes on behind it.
    pub fn standing(&self) -> (u32, u32)
        ensures { result ≡ (self.now.keys.token, self.now.used) }
    {
        (self.keys.token, self.used)
    }

    /// Goes on with another ring, of the same key length. The keys in use stay, and their numbers go on, until `turn_to` finds a
    /// set with a higher token: no token and number come twice, whatever the ring. A ring that `keeps_token` passes has the keys
    /// in use, so that a guard of it opens what is sent until then.
    pub fn renew(&mut self, ring: Ring)
        ensures state { self.new ≡ renewed self.old (key_sets ring) }
    {
        self.ring = ring;
    }

    /// Whether the ring has the token in use, with the keys in use.
    pub fn keeps_token(&self, ring: &Ring) -> bool
        ensures { IsTrue result ↔ KeepsToken self.now (key_sets ring.now) }
    {
        match ring.find(self.keys.token) {
            Some(set) => self.keys.are_of(set),
            None => false,
        }
    }

    /// Whether fewer than 1,024 numbers are left under the token.
    pub fn spent(&self) -> bool
        ensures { IsTrue result ↔ (numbers_left self.now < 1024) }
    {
        LAST_NUMBER - self.used < RESERVE
    }

    /// Takes the next number. The header of the datagram that `protect` then protects has to carry what this gives.
    pub fn front(&mut self, mode: Mode) -> SecurityPart<'_>
        requires room { self.old.used < 4294967295 }
        requires secured { IsTrue (is_secured mode) }
        ensures* after { sem 𝓛 (LendsFront mode self.entry) }
        ensures front { security_in result ≡ front_value mode (advanced mode self.old) }
        ensures written { IsSendersSecurity (security_in result) }
    {
        self.used += 1;
        self.fronted = Some(mode);
        self.nonce = message_nonce(&self.random, self.used);
        SecurityPart {
            signed: true,
            encrypted: mode.encrypts(),
            footer: false,
            reset: false,
            token: self.keys.token,
            nonce: &self.nonce,
        }
    }

    /// Whether `protect` may be called: the last front was of the mode, with no new token since, the header that the
    /// datagram begins with ends at `payload` and carries it, and 32 bytes or more stand behind.
    pub fn may_protect(&self, mode: Mode, datagram: &[u8], payload: usize) -> bool
        ensures { IsTrue result ↔ MayProtect mode self.now datagram.now payload }
    {
        let Ok((header, end)) = read_header(datagram) else {
            return false;
        };
        if end != payload {
            return false;
        }
        if datagram.len() - end < SIGNATURE_BYTES {
            return false;
        }
        self.has_front(mode) && self.carries_front(mode, &header.security)
    }

    fn has_front(&self, mode: Mode) -> bool
        ensures { IsTrue result ↔ (self.now.fronted ≡ Some mode) }
    {
        match self.fronted {
            Some(fronted) => fronted == mode,
            None => false,
        }
    }

    fn carries_front(&self, mode: Mode, security: &Option<SecurityPart<'_>>) -> bool
        ensures { IsTrue result
            ↔ (if_there security_in security.now ≡ Some (front_value mode self.now)) }
    {
        let Some(part) = security else {
            return false;
        };
        part.signed
            && part.encrypted == mode.encrypts()
            && !part.footer
            && !part.reset
            && part.token == self.keys.token
            && part.nonce == message_nonce(&self.random, self.used).as_slice()
    }

    /// Protects a datagram whose header, which ends at `payload`, carries the last front, of the same mode: encrypts from
    /// `payload` on, where the mode says so, and fills the last 32 bytes with the signature of all before them. A front
    /// serves one datagram: a second one would have its token and number again.
    pub fn protect(&self, mode: Mode, datagram: &mut [u8], payload: usize)
        requires secured { IsTrue (is_secured mode) }
        requires front { MayProtect mode self.now datagram.old payload }
        ensures protected { datagram.new ≡ made_of mode self.now datagram.old payload }
        ensures header { IsSecured datagram.new (Some (front_value mode self.now)) payload }
    {
        self.seal(mode, datagram, payload);
    }

    // Encrypts, and signs what it then has.
    fn seal(&self, mode: Mode, datagram: &mut [u8], payload: usize)
        requires { payload + 32 ≤ length datagram.old }
        ensures { datagram.new ≡ made_of mode self.now datagram.old payload }
    {
        let end = datagram.len() - SIGNATURE_BYTES;
        let nonce = message_nonce(&self.random, self.used);
        self.keys.add_stream(mode, &nonce, self.first_block, &mut datagram[payload..end]);
        let signature = self.keys.signing.sign(&datagram[..end]);
        datagram[end..].copy_from_slice(&signature);
    }
}
