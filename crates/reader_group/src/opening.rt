//! A datagram is refused, or opened.
ghost use Rattle.std.specs.Prelude.{◌≡◌, ◌≤◌, length, IfErr, IfOk};
ghost use Rattle.message_guard.specs.Guards.{IsPassOf};
ghost use Rattle.uadp_header.specs.Headers.{ListOf, ids_in};
ghost use Rattle.uadp_header.specs.Spelling.{AreIds};
ghost use Rattle.payload_layout.specs.Payloads.{IsWithin};
ghost use Rattle.reader_group.specs.Begun.{ids_carried, FindsMessages, FindsListed, HasMessages, OpensBy, LeavesBytes, BeginsBy, LeavesRefused, payload_held};
ghost use Rattle.reader_group.specs.Held.{payload_in};
ghost use Rattle.reader_group.specs.Refused.{KeepsSender};

use crate::begun::{Begun, Carried};
use crate::filter::is_ours;
use crate::payload::{Messages, Payload};
use crate::refusal::Refusal;
use arrayvec::ArrayVec;
use message_guard::Guard;
use payload_layout::{Parts, split};
use ps_config::{Layout, ReadGroupPart};
use std::alloc::Global;
use ua_base::NoMemory;
use uadp_header::{Ids, read_header};

/// Buffers for the writer ids of a datagram, two bytes each, and for the places of its messages.
#[derive(Drop)]
pub(crate) struct Buffers {
    pub ids: ArrayVec<u8, 510>,
    pub parts: Parts,
}

/// Empty buffers, which stay where they lie: they are too large to be moved with their group.
#[inline(never)]
pub(crate) fn new_room(alloc: Global) -> Result<Box<Buffers>, NoMemory> {
    let room = Buffers {
        ids: ArrayVec::new(),
        parts: ArrayVec::new(),
    };
    match Box::new(alloc, room) {
        Ok(room) => Ok(room),
        Err(_) => Err(NoMemory),
    }
}

/// Opens a datagram: it is decrypted in place, and the places of its messages are found. A refusal may leave the room changed, and
/// one for the payload comes once the bytes are decrypted.
pub(crate) fn open(
    group: &ReadGroupPart,
    guard: &Guard,
    room: &mut Buffers,
    bytes: &mut [u8],
) -> Result<Begun, Refusal>
    ensures verdict { OpensBy group.now guard.now bytes.old result room.new bytes.new }
    ensures bytes { LeavesBytes group.now guard.now bytes.old bytes.new }
    ensures sender { IfErr result (KeepsSender bytes.old bytes.new) }
    ensures messages { IfOk result
        (λ begun. HasMessages group.now.layout begun room.new bytes.new) }
    ensures pass { IfOk result (λ begun. IsPassOf guard.now begun.pass) }
    ensures within { IfOk result (λ begun. begun.pass.end ≤ length bytes.new) }
{
    let begun = begin(group, guard, room, bytes)?;
    guard.decrypt(&begun.pass, bytes, begun.payload);
    find_messages(
        group.layout,
        &begun,
        room,
        &bytes[begun.payload..begun.pass.end],
    )?;
    Ok(begun)
}

// The refusals of the header, of the filter and of the guard.
fn begin(
    group: &ReadGroupPart,
    guard: &Guard,
    room: &mut Buffers,
    bytes: &[u8],
) -> Result<Begun, Refusal>
    ensures verdict { BeginsBy group.now guard.now bytes.now result room.new }
    ensures left { LeavesRefused group.now guard.now bytes.now result }
    ensures ids { IfOk result (λ begun. AreIds (ids_carried begun.carried room.new.ids.items)) }
    ensures pass { IfOk result (λ begun. IsPassOf guard.now begun.pass) }
    ensures within { IfOk result (λ begun. begun.pass.end ≤ length bytes.now) }
{
    let (header, payload) = read_header(bytes)?;
    if !is_ours(group, &header) {
        return Err(Refusal::NotOurs);
    }
    let pass = guard.test(header.security.as_ref(), bytes, payload)?;
    let carried = carried_by(&header.ids, &mut room.ids);
    Ok(Begun {
        payload,
        pass,
        carried,
    })
}

// The bytes of a list of ids are kept.
fn carried_by(ids: &Ids<'_>, kept: &mut ArrayVec<u8, 510>) -> Carried
    requires { AreIds (ids_in ids.now) }
    ensures { ids_carried result kept.new.items ≡ ids_in ids.now }
{
    match ids {
        Ids::None => Carried::None,
        Ids::Chunk(writer) => Carried::Chunk(*writer),
        Ids::List(bytes) => {
            keep(bytes, kept);
            Carried::List
        }
    }
}

/// Keeps these bytes in place of others. As many as those are written over them, which aren't cleared first.
fn keep(bytes: &[u8], kept: &mut ArrayVec<u8, 510>)
    requires { length bytes.now ≤ 510 }
    ensures { kept.new.items ≡ bytes.now }
{
    if kept.len() == bytes.len() {
        write_over(kept.as_mut_slice(), bytes);
        return;
    }
    kept.clear();
    match kept.try_extend_from_slice(bytes) {
        Ok(()) => {}
        // there is room for 255 ids
        Err(_) => unreachable!(),
    }
}

/// Writes these bytes over as many others. One id, the commonest, is copied without a call, by its known length.
#[inline(always)]
fn write_over(kept: &mut [u8], bytes: &[u8])
    requires { length kept.old ≡ length bytes.now }
    ensures { kept.new ≡ bytes.now }
{
    if bytes.len() == 2 {
        kept[..2].copy_from_slice(&bytes[..2]);
    } else {
        kept.copy_from_slice(bytes);
    }
}

// The refusals of the payload, and where its messages are.
fn find_messages(
    layout: Layout,
    begun: &Begun,
    room: &mut Buffers,
    payload: &[u8],
) -> Result<(), Refusal>
    requires { AreIds (ids_carried begun.now.carried room.old.ids.items) }
    ensures { FindsMessages layout begun.now.carried payload.now room.old room.new result }
{
    match (layout, begun.carried) {
        (Layout::Fixed, _) | (Layout::Dynamic, Carried::Chunk(_)) => Ok(()),
        (Layout::Dynamic, Carried::None) => Err(Refusal::NoIds),
        (Layout::Dynamic, Carried::List) => find_listed(room, payload),
    }
}

// Where the messages are that a list of ids tells of.
fn find_listed(room: &mut Buffers, payload: &[u8]) -> Result<(), Refusal>
    requires { AreIds (ListOf room.old.ids.items) }
    ensures { FindsListed payload.now room.old room.new result }
{
    let count = (room.ids.len() / 2) as u8;
    split(payload, count, &mut room.parts)?;
    Ok(())
}

/// What an opened datagram has for the readers.
pub(crate) fn payload_held<'a>(
    layout: Layout,
    begun: &Begun,
    room: &'a Buffers,
    bytes: &'a [u8],
) -> Payload<'a>
    requires messages { HasMessages layout begun.now room.now bytes.now }
    requires within { begun.now.pass.end ≤ length bytes.now }
    ensures { payload_in result ≡ payload_held layout begun.now room.now bytes.now }
{
    let payload = &bytes[begun.payload..begun.pass.end];
    match (layout, begun.carried) {
        (Layout::Fixed, _) => Payload::Slots(&bytes[..begun.pass.end]),
        (Layout::Dynamic, Carried::Chunk(writer)) => Payload::Chunk {
            writer,
            bytes: payload,
        },
        (Layout::Dynamic, Carried::List) => Payload::Messages(Messages {
            ids: room.ids.as_slice(),
            parts: room.parts.as_slice(),
            payload,
        }),
        (Layout::Dynamic, Carried::None) => unreachable!(),
    }
}
