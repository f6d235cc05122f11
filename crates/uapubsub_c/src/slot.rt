//! The pointer that C keeps.
ghost use Rattle.std.specs.Prelude.{◌≡◌};
ghost use Rattle.std.specs.declared.option.Option.{Option};
ghost use Rattle.uapubsub_c.specs.declared.kept.Kept.{Kept};

use crate::kept::Kept;
use crate::loose::Loose;
use std::alloc::Global;
use std::marker::Model;
use std::ptr::null_mut;

/// A pointer that C keeps and never reads, and what lies behind it, if anything does. The pointer's type says nothing of it, since C
/// may be handed no type that shares memory. Letting one go frees nothing.
#[repr(C)]
#[derive(Drop)]
pub struct Slot {
    at: *mut u8,
    pub ghost held: { Option Kept },
}

impl Model for Slot {
    ghost use Rattle.uapubsub_c.specs.contracts.kept.Kept.{the_row};
    ghost use Rattle.uapubsub_c.specs.Holding.{held_by};

    ghost also_owns = { λ slot. held_by the_row slot.at slot.held };
}

impl Slot {
    ghost use Rattle.std.specs.Prelude.{◌≡◌, IsSome};
    ghost use Rattle.std.specs.declared.option.Option.TheVariants.{None, Some};

    /// Holds nothing.
    pub fn none() -> Slot
        ensures { result.held ≡ None }
    {
        Slot { at: null_mut() }
    }

    /// Holds what the pointer owns.
    pub fn of(value: Loose<Kept, Global>) -> Slot
        ensures { result.held ≡ Some value.value }
    {
        let Loose { at, alloc: _ } = value;
        Slot { at: at as *mut u8 }
    }

    /// What is held.
    pub fn into_loose(self, alloc: Global) -> Loose<Kept, Global>
        requires { IsSome self.held }
        ensures { self.held ≡ Some result.value }
    {
        let Slot { at } = self;
        Loose {
            at: at as *mut Kept,
            alloc,
        }
    }
}
