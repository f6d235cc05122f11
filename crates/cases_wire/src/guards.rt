//! Rows of `message_guard`.
ghost use Rattle.std.specs.Prelude.{◌≤◌, IsTrue, IfOk, length};
ghost use Rattle.message_guard.specs.Guards.{IsPassOf};
ghost use Rattle.message_guard.specs.Modes.{is_secured};

use crate::calls::{GuardCall, KeysCall, SenderCall};
use crate::header_parts::Security;
use arrayvec::ArrayVec;
use case_lines::{Answer, CaseLine, Digits, LineFault, Told, refused, told, two, yes_or_no};
use group_keys::{KeySet, Ring};
use message_guard::{Guard, Mode, OpenFault, Pass1, Sender};
use std::alloc::Global;

/// The key sets, the sender and the guard that the lines speak of.
#[derive(Drop)]
pub struct GuardRows {
    sets: ArrayVec<KeySet, 16>,
    sender: Option<Sender>,
    guard: Option<Guard>,
}

impl GuardRows {
    pub fn new() -> GuardRows {
        GuardRows {
            sets: ArrayVec::new(),
            sender: None,
            guard: None,
        }
    }

    /// The calls of key sets, and of what is made of them.
    pub fn keyed(&mut self, alloc: Global, call: KeysCall, line: &mut CaseLine) -> Answer {
        match call {
            KeysCall::Keysets => self.keysets(),
            KeysCall::Keyset => self.keyset(alloc, line),
            KeysCall::Sender => self.sender(line),
            KeysCall::Guard => self.guard(line),
        }
    }

    /// The calls of the sender.
    pub fn sent(&mut self, alloc: Global, call: SenderCall, line: &mut CaseLine) -> Answer {
        let Some(sender) = &mut self.sender else {
            return Err(LineFault::Condition);
        };
        match call {
            SenderCall::SenderTurn => yes_or_no(alloc, sender.turn_to(line.u64())),
            SenderCall::Spent => yes_or_no(alloc, sender.spent()),
            SenderCall::Front => front(alloc, sender, line),
            SenderCall::MayProtect => may_protect(alloc, sender, line),
            SenderCall::Protect => protect(alloc, sender, line),
        }
    }

    /// The calls of the guard.
    pub fn guarded(&mut self, alloc: Global, call: GuardCall, line: &mut CaseLine) -> Answer {
        let Some(guard) = &mut self.guard else {
            return Err(LineFault::Condition);
        };
        match call {
            GuardCall::Test => test(alloc, guard, line),
            GuardCall::Open => open(alloc, guard, line),
        }
    }

    /// `keysets`: begins a new list
    fn keysets(&mut self) -> Answer {
        self.sets = ArrayVec::new();
        Ok(None)
    }

    /// `keyset TOKEN MOMENT SIGNING ENCRYPTING NONCE`
    fn keyset(&mut self, alloc: Global, line: &mut CaseLine) -> Answer {
        match self.sets.try_push(key_set(alloc, line)?) {
            Ok(()) => Ok(None),
            Err(_) => Err(LineFault::Condition),
        }
    }

    fn ring(&self) -> Result<Ring, LineFault> {
        let mut long = false;
        for set in self.sets.as_slice() {
            long |= set.encrypting.len() == 32;
        }
        match Ring::new(long, self.sets.clone()?) {
            Ok(ring) => Ok(ring),
            Err(_) => Err(LineFault::Condition),
        }
    }

    /// `sender RANDOM FIRST USED`
    fn sender(&mut self, line: &mut CaseLine) -> Answer {
        let random = line.array();
        let first = line.u32();
        let used = line.u32();
        self.sender = Some(Sender::new(self.ring()?, random, first, used));
        Ok(None)
    }

    /// `guard MODE FIRST`
    fn guard(&mut self, line: &mut CaseLine) -> Answer {
        let mode = mode_of(line.word())?;
        self.guard = Some(Guard::new(self.ring()?, mode, line.u32()));
        Ok(None)
    }
}

/// `front MODE`: flags, token and nonce of the next number; the sender isn't spent
fn front(alloc: Global, sender: &mut Sender, line: &mut CaseLine) -> Answer {
    let mode = secured(line)?;
    if sender.spent() {
        return Err(LineFault::Condition);
    }
    let part = sender.front(mode);
    let mut told = Told::new(alloc);
    told.say(if part.encrypted { "se" } else { "s" });
    told.fill(" # ", &[part.token as u64]);
    told.show(&Digits(part.nonce));
    told.answer()
}

/// `may_protect MODE PAYLOAD DATAGRAM`: whether the datagram carries the last front
fn may_protect(alloc: Global, sender: &Sender, line: &mut CaseLine) -> Answer {
    let mode = secured(line)?;
    let payload = line.u32() as usize;
    let datagram = line.piece(alloc);
    yes_or_no(alloc, sender.may_protect(mode, &datagram, payload))
}

/// `protect MODE HEADER PAYLOAD`: the protected datagram; the header carries the last front
fn protect(alloc: Global, sender: &Sender, line: &mut CaseLine) -> Answer {
    let mode = secured(line)?;
    let (at, mut datagram) = unprotected(alloc, line)?;
    if !sender.may_protect(mode, &datagram, at) {
        return Err(LineFault::Condition);
    }
    sender.protect(mode, &mut datagram, at);
    told(alloc, &Digits(&datagram))
}

/// `test FLAGS TOKEN NONCE PAYLOAD DATAGRAM`: token, number and end, or the refusal
fn test(alloc: Global, guard: &Guard, line: &mut CaseLine) -> Answer {
    let asked = Asked::read(alloc, line)?;
    match asked.test(guard) {
        Ok(pass) => {
            let mut told = Told::new(alloc);
            let (token, number) = (pass.token as u64, pass.number as u64);
            told.fill("pass # # #", &[token, number, pass.end as u64]);
            told.answer()
        }
        Err(fault) => refused(alloc, &fault),
    }
}

/// `open FLAGS TOKEN NONCE PAYLOAD DATAGRAM`: the decrypted payload, and whether the token was raised, or the refusal
fn open(alloc: Global, guard: &mut Guard, line: &mut CaseLine) -> Answer {
    let mut asked = Asked::read(alloc, line)?;
    match asked.test(guard) {
        Ok(pass) => {
            guard.decrypt(&pass, &mut asked.datagram, asked.payload);
            let raised = if guard.accept(pass) { "raised" } else { "kept" };
            let payload = &asked.datagram[asked.payload..pass.end];
            two(alloc, &Digits(payload), &raised)
        }
        Err(fault) => refused(alloc, &fault),
    }
}

/// The length of a header, and a datagram of that header, a payload and room for a signature.
fn unprotected(alloc: Global, line: &mut CaseLine) -> Result<(usize, Vec<u8>), LineFault> {
    let mut datagram = line.piece(alloc);
    let at = datagram.len();
    datagram.extend_from_slice(&line.piece(alloc))?;
    datagram.extend_from_slice(&[0; 32])?;
    Ok((at, datagram))
}

fn key_set(alloc: Global, line: &mut CaseLine) -> Result<KeySet, LineFault> {
    Ok(KeySet {
        token: line.u32(),
        from: line.u64(),
        signing: line.array(),
        encrypting: encrypting_key(&line.piece(alloc))?,
        nonce: line.array(),
    })
}

/// An encrypting key of these bytes, where it isn't too long.
pub fn encrypting_key(bytes: &[u8]) -> Result<ArrayVec<u8, 32>, LineFault> {
    let mut key = ArrayVec::new();
    match key.try_extend_from_slice(bytes) {
        Ok(()) => Ok(key),
        Err(_) => Err(LineFault::Condition),
    }
}

/// A datagram with what its header says, without a security header where its flags are `-`.
#[derive(Drop)]
struct Asked {
    security: Option<Security>,
    payload: usize,
    datagram: Vec<u8>,
}

impl Asked {
    fn read(alloc: Global, line: &mut CaseLine) -> Result<Asked, LineFault>
        ensures { IfOk result (λ asked. asked.payload ≤ length asked.datagram.items) }
    {
        let (flags, token, nonce) = (line.word(), line.word(), line.word());
        let payload = line.u32() as usize;
        let security = match flags {
            "-" => None,
            flags => Some(Security::read(alloc, flags, token, nonce)?),
        };
        let datagram = line.piece(alloc);
        if payload > datagram.len() {
            return Err(LineFault::Condition);
        }
        Ok(Asked {
            security,
            payload,
            datagram,
        })
    }

    fn test(&self, guard: &Guard) -> Result<Pass1, OpenFault>
        requires { self.now.payload ≤ length self.now.datagram.items }
        ensures pass { IfOk result (IsPassOf guard.now) }
        ensures order { IfOk result (λ pass. self.now.payload ≤ pass.end) }
        ensures within { IfOk result (λ pass. pass.end ≤ length self.now.datagram.items) }
    {
        let Some(security) = &self.security else {
            return guard.test(None, &self.datagram, self.payload);
        };
        guard.test(Some(&security.part()), &self.datagram, self.payload)
    }
}

fn mode_of(word: &str) -> Result<Mode, LineFault> {
    match word {
        "none" => Ok(Mode::None),
        "sign" => Ok(Mode::Sign),
        "encrypt" => Ok(Mode::Encrypt),
        _ => Err(LineFault::Call),
    }
}

fn secured(line: &mut CaseLine) -> Result<Mode, LineFault>
    ensures { IfOk result (λ mode. IsTrue (is_secured mode)) }
{
    match line.word() {
        "sign" => Ok(Mode::Sign),
        "encrypt" => Ok(Mode::Encrypt),
        _ => Err(LineFault::Call),
    }
}
