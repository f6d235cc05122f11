//! The slots of a group's datagrams.
ghost use Rattle.std.specs.Prelude.{◌≡◌, ◌≢◌, ◌-◌, ◌<◌, ◌≤◌, ◌++◌, ℕ, Some, length, max, replicate, take, IfOk, IfErr, OnOk};
ghost use Rattle.std.specs.List.{HoldsAt};
ghost use Rattle.std.specs.Option.{option_copied};
ghost use Rattle.fixed_layout.specs.Slots.{end_of, AreWithin, AreSlots, layout_of};
ghost use Rattle.fixed_layout.specs.Faults.{RefusesSlots};
ghost use Rattle.fixed_layout.specs.Datagrams.{filled, placed, slot_of, last_end};

use crate::judge::judge;
use crate::slot::Slot;
use crate::slot_fault::SlotFault;
use arrayvec::ArrayVec;
use std::marker::Model;

/// Slots of which no two, nor the header and one of them, share a byte: at most 16. Each is as large as what it is for, and
/// ends within the limit.
#[derive(Drop)]
pub struct Slots {
    // how long the header is, in bytes
    start: u32,
    limit: u32,
    slots: ArrayVec<Slot, 16>,
}

impl Model for Slots {
    ghost use Rattle.fixed_layout.specs.Slots.{Layout, AreSlots};

    ghost Value = { Layout };

    ghost view = { λ s. record { start = s.start; limit = s.limit; slots = s.slots.items } };

    ghost invariant = { λ s. AreSlots s.start s.limit s.slots.items };
}

impl Slots {
    /// The slots of datagrams with a header of `start` bytes and of at most `limit` bytes. The limit counts no signature: of
    /// signed datagrams it is the most bytes in front of the signature. That the header keeps to it isn't judged.
    pub fn new(start: u32, limit: u32, slots: &[Slot]) -> Result<Slots, SlotFault>
        requires { length slots.now ≤ 16 }
        ensures ok { IfOk result (λ made. made ≡ layout_of start limit slots.now) }
        ensures accepted { OnOk result (AreSlots start limit slots.now) }
        ensures refused { IfErr result (RefusesSlots start limit slots.now) }
    {
        judge(start, limit, slots)?;
        Ok(Slots {
            start,
            limit,
            slots: kept(slots),
        })
    }

    /// The slots, in the order of the writers or readers that they are for.
    pub fn slots(&self) -> &[Slot]
        ensures slots { result.now ≡ self.now.slots }
        ensures accepted { AreSlots self.now.start self.now.limit self.now.slots }
        ensures few { length result.now ≤ 16 }
    {
        self.slots.as_slice()
    }

    /// Where a datagram ends, without a signature: with the slot that ends last, or with the header where no slot ends
    /// behind that.
    pub fn end(&self) -> u32
        ensures end { result ≡ max self.now.start (last_end self.now.slots) }
        ensures within { self.now.start ≤ self.now.limit → result ≤ self.now.limit }
    {
        prove!(self.limit <= u32::MAX);
        self.start.max(last_end(self.slots.as_slice()))
    }

    /// What stands in the slot at this index; none where the datagram ends before the slot does. `datagram` is the header and
    /// the slots: of a signed datagram the bytes in front of the signature, or else a slot may reach into it.
    pub fn take<'a>(&self, datagram: &'a [u8], index: u8) -> Option<&'a [u8]>
        requires { index < length self.now.slots }
        ensures { HoldsAt (λ slot. option_copied result ≡ slot_of datagram.now slot)
            self.now.slots index }
    {
        let slot = &self.slots.as_slice()[usize::from(index)];
        datagram.get(slot.offset as usize..slot.end() as usize)
    }

    /// Writes what stands in the slot at this index, and zeros behind it up to the slot's end. It leaves the header, the other
    /// slots and all that stands behind them.
    pub fn place(&self, datagram: &mut [u8], index: u8, bytes: &[u8])
        requires index { index < length self.now.slots }
        requires fits { HoldsAt (λ slot. length bytes.now ≤ slot.size) self.now.slots index }
        requires room { HoldsAt (λ slot. end_of slot ≤ length datagram.old) self.now.slots index }
        ensures held { HoldsAt (λ slot. slot_of datagram.new slot ≡ Some (filled slot bytes.now))
            self.now.slots index }
        ensures others { (other : ℕ) → other < length self.now.slots → other ≢ index
            → HoldsAt (λ slot. slot_of datagram.new slot ≡ slot_of datagram.old slot)
            self.now.slots other }
        ensures header { take self.now.start datagram.new ≡ take self.now.start datagram.old }
        ensures placed { HoldsAt (λ slot. datagram.new ≡ placed datagram.old slot bytes.now)
            self.now.slots index }
    {
        fill_slot(datagram, &self.slots.as_slice()[usize::from(index)], bytes);
    }
}

/// Writes what stands in a slot, and zeros behind it up to the slot's end.
fn fill_slot(datagram: &mut [u8], slot: &Slot, bytes: &[u8])
    requires fits { length bytes.now ≤ slot.now.size }
    requires room { end_of slot.now ≤ length datagram.old }
    ensures { datagram.new ≡ placed datagram.old slot.now bytes.now }
{
    let room = &mut datagram[slot.offset as usize..slot.end() as usize];
    fill(room, bytes);
}

/// Writes the bytes, and zeros behind them.
fn fill(room: &mut [u8], bytes: &[u8])
    requires { length bytes.now ≤ length room.old }
    ensures { room.new ≡ bytes.now ++ replicate (length room.old - length bytes.now) 0 }
{
    let (front, rest) = room.split_at_mut(bytes.len());
    front.copy_from_slice(bytes);
    rest.fill(0);
}

/// Where the slot that ends last ends.
fn last_end(slots: &[Slot]) -> u32
    requires { AreWithin u32.MAX slots.now }
    ensures { result ≡ last_end slots.now }
{
    let mut end = 0;
    for slot in slots {
        end = end.max(slot.offset + slot.size);
    }
    end
}

fn kept(slots: &[Slot]) -> ArrayVec<Slot, 16>
    requires { length slots.now ≤ 16 }
    ensures { result.items ≡ slots.now }
{
    let mut kept = ArrayVec::new();
    match kept.try_extend_from_slice(slots) {
        Ok(()) => kept,
        // there is room for 16
        Err(_) => unreachable!(),
    }
}
