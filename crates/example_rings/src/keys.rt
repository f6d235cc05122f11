//! The key service of a security group, and the rings that are pulled of it (OPC 10000-14 8.3.2, GetSecurityKeys).
ghost use Rattle.std.specs.Prelude.{◌≡◌, ◌≤◌, IfOk, length};
ghost use Rattle.group_keys.specs.Ring.{is_long};

use crate::fault::Fault;
use arrayvec::ArrayVec;
use dataset_meta::Name32;
use group_keys::{KeySet, Ring};
use key_service::{
    Keys, Service, pulled_for, read_reply, read_request, write_reply, write_request,
};
use ua_binary::Pen;

/// How many keys the service has, of the tokens from 1 on.
const KEYS: u32 = 16;

/// How long each of them is used, in milliseconds (KeyLifetime).
const LIFETIME: u64 = 400;

/// What is asked for: the current key and those after it (StartingTokenId 0), two in all (RequestedKeyCount).
const CURRENT: u32 = 0;

const COUNT: u32 = 2;

/// No request is longer, and no reply.
const REQUEST_BYTES: usize = 44;

const REPLY_BYTES: usize = 1197;

/// The ring of a puller for a key group whose keys are of AES-256, or of AES-128 where it isn't `long`: a reply of the other policy
/// makes none. The service's clock stands at `now` when it is asked, and the puller's at `clock`.
pub fn pulled_ring(
    service: &Service,
    group: &Name32,
    long: bool,
    now: u64,
    clock: u64,
) -> Result<Ring, Fault>
    ensures long { IfOk result (λ ring. is_long ring ≡ long) }
{
    match pulled_for(long, &reply_of(service, group, now)?, clock) {
        Some(ring) => Ok(ring),
        None => Err(Fault::NoRing),
    }
}

/// What the service replies. Request and reply pass as bytes.
fn reply_of(service: &Service, group: &Name32, now: u64) -> Result<Keys, Fault> {
    let (mut request, mut reply) = ([0; REQUEST_BYTES], [0; REPLY_BYTES]);
    let end = ask(group, &mut request)?;
    let end = answer(service, now, &request[..end], &mut reply)?;
    Ok(read_reply(&reply[..end])?)
}

/// Lays the request in front, and tells where it ends.
fn ask(group: &Name32, room: &mut [u8]) -> Result<usize, Fault>
    ensures within { IfOk result (λ end. end ≤ length room.new) }
    ensures length { length room.new ≡ length room.old }
{
    let mut pen = Pen { bytes: room, at: 0 };
    match write_request(&mut pen, group, CURRENT, COUNT) {
        Ok(()) => Ok(pen.at),
        Err(_) => Err(Fault::NoRing),
    }
}

/// The service's part: it reads the request, lays its reply in front, and tells where that ends.
fn answer(service: &Service, now: u64, request: &[u8], room: &mut [u8]) -> Result<usize, Fault>
    ensures within { IfOk result (λ end. end ≤ length room.new) }
    ensures length { length room.new ≡ length room.old }
{
    let asked = read_request(request)?;
    let keys = service.get(now, &asked.group, asked.start, asked.count)?;
    let mut pen = Pen { bytes: room, at: 0 };
    match write_reply(&mut pen, &keys) {
        Ok(()) => Ok(pen.at),
        Err(_) => Err(Fault::NoRing),
    }
}

/// The service of this security group, with keys of AES-256.
pub fn service_of(group: Name32) -> Result<Service, Fault> {
    let mut sets = ArrayVec::new();
    for index in 0..KEYS {
        let _ = sets.try_push(key_set(index));
    }
    let Ok(ring) = Ring::new(true, sets) else {
        return Err(Fault::NoRing);
    };
    match Service::new(group, ring) {
        Ok(service) => Ok(service),
        Err(_) => Err(Fault::NoRing),
    }
}

/// The key with this index, made of its token's bytes so that a run is known beforehand. A real service draws its keys at random.
fn key_set(index: u32) -> KeySet {
    let token = index.saturating_add(1);
    let nonce = token.to_le_bytes();
    let (mut signing, mut bytes) = ([0x5a; 32], [0xc3; 32]);
    signing[..4].copy_from_slice(&nonce);
    bytes[..4].copy_from_slice(&nonce);
    let mut encrypting = ArrayVec::new();
    let _ = encrypting.try_extend_from_slice(&bytes);
    KeySet {
        token,
        from: u64::from(index).saturating_mul(LIFETIME),
        signing,
        encrypting,
        nonce,
    }
}
