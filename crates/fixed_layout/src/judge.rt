//! Which slots make a layout.
ghost use Rattle.std.specs.Prelude.{◌≡◌, ◌↔◌, ◌<◌, ◌≤◌, Any, length, IfSome, IfNone, IfErr, OnOk, IsTrue};
ghost use Rattle.fixed_layout.specs.Slots.{ShareAByte, AreApart, AreLarge, AreWithin, AreSlots};
ghost use Rattle.fixed_layout.specs.Faults.{IsClash, IsSmall, IsPast, IsFirstSlot, RefusesSlots};

use crate::slot::Slot;
use crate::slot_fault::SlotFault;

/// Whether these are the slots of datagrams with a header of `start` bytes and of at most `limit` bytes.
pub(crate) fn judge(start: u32, limit: u32, slots: &[Slot]) -> Result<(), SlotFault>
    requires { length slots.now ≤ 16 }
    ensures accepted { OnOk result (AreSlots start limit slots.now) }
    ensures refused { IfErr result (RefusesSlots start limit slots.now) }
{
    if let Some(index) = first_clash(start, slots) {
        return Err(SlotFault::Clash { index });
    }
    if let Some(index) = first_small(slots) {
        return Err(SlotFault::Small { index });
    }
    if let Some(index) = first_past(limit, slots) {
        return Err(SlotFault::Past { index });
    }
    Ok(())
}

fn first_clash(start: u32, slots: &[Slot]) -> Option<u8>
    requires { length slots.now ≤ 16 }
    ensures found { IfSome result (IsFirstSlot slots.now (IsClash start slots.now)) }
    ensures none { IfNone result (AreApart start slots.now) }
{
    for index in 0..slots.len() {
        if is_clash(start, slots, index) {
            return Some(index as u8);
        }
    }
    None
}

/// Whether the slot at this index shares a byte with the header or with an earlier slot.
fn is_clash(start: u32, slots: &[Slot], index: usize) -> bool
    requires { index < length slots.now }
    ensures { IsTrue result ↔ IsClash start slots.now index }
{
    let header = Slot {
        offset: 0,
        size: start,
        need: 0,
    };
    let slot = &slots[index];
    share_a_byte(&header, slot) || shares_with_one(&slots[..index], slot)
}

fn shares_with_one(earlier: &[Slot], slot: &Slot) -> bool
    ensures { IsTrue result ↔ Any (λ one. ShareAByte one slot.now) earlier.now }
{
    earlier.iter().any(|one| share_a_byte(one, slot))
}

/// Whether the later begin stands before the earlier end.
fn share_a_byte(one: &Slot, other: &Slot) -> bool
    ensures { IsTrue result ↔ ShareAByte one.now other.now }
{
    let begin = one.offset.max(other.offset);
    u64::from(begin) < one.end().min(other.end())
}

fn first_small(slots: &[Slot]) -> Option<u8>
    requires { length slots.now ≤ 16 }
    ensures found { IfSome result (IsFirstSlot slots.now (IsSmall slots.now)) }
    ensures none { IfNone result (AreLarge slots.now) }
{
    for (index, slot) in slots.iter().enumerate() {
        if slot.size < slot.need {
            return Some(index as u8);
        }
    }
    None
}

fn first_past(limit: u32, slots: &[Slot]) -> Option<u8>
    requires { length slots.now ≤ 16 }
    ensures found { IfSome result (IsFirstSlot slots.now (IsPast limit slots.now)) }
    ensures none { IfNone result (AreWithin limit slots.now) }
{
    for (index, slot) in slots.iter().enumerate() {
        if u64::from(limit) < slot.end() {
            return Some(index as u8);
        }
    }
    None
}
