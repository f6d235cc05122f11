//! The making of a bank.
ghost use Rattle.std.specs.Prelude.{◌≡◌, ℕ, ◌<◌, ◌++◌, [], ◌∷◌, length, map, replicate, slice_index_or, All, None, IfOk, OnOk};
ghost use Rattle.version_cell.specs.Known.{nothing};
ghost use Rattle.version_cell.specs.Cells.{IsCell};
ghost use Rattle.cell_bank.specs.Hands.{AreSmall, AreHands};
ghost use Rattle.version_cell.specs.Sets.{ArePassesOf, new_passes};

use crate::bank::Bank;
use dataset_meta::Meta;
use std::alloc::Global;
use std::sync::Wait;
use ua_base::NoMemory;
use version_cell::{Cell, Pass, Passes};

impl Bank {
    /// A bank of a cell for each of these metas, whose authors may make so many entries; a set of passes with no numbers, and a
    /// set for each of the eight numbers, in order. All have seen the opening rows alone.
    pub fn new<R: Wait>(
        rt: &R,
        alloc: Global,
        metas: &[Meta],
        quotas: &[[u64; 8]],
    ) -> Result<(Bank, Passes, Vec<Passes>), NoMemory>
        requires count { length quotas.now ≡ length metas.now }
        requires quotas { AreSmall quotas.now }
        ensures cells { IfOk result (λ made. All IsCell made.0) }
        ensures metas { IfOk result (λ made. map (λ cell. cell.meta) made.0 ≡ metas.now) }
        ensures quotas { IfOk result (λ made. map (λ cell. cell.quotas) made.0 ≡ quotas.now) }
        ensures first { IfOk result (λ made. made.1 ≡ new_passes made.0 None) }
        ensures own { IfOk result (λ made. ArePassesOf made.0 made.1) }
        ensures hands { IfOk result (λ made. AreHands made.0 made.2.items) }
    {
        let mut cells = Vec::new(alloc);
        let mut items = Vec::new(alloc);
        let mut hands = empty_hands(alloc)?;
        for set in 0..metas.len() {
            let (cell, first, passes) = Cell::new(rt, alloc, &metas[set], &quotas[set])?;
            cells.push(cell)?;
            items.push(first)?;
            hand_out(&mut hands, passes)?;
        }
        Ok((Bank { cells }, Passes { items }, hands))
    }
}

fn empty_hands(alloc: Global) -> Result<Vec<Passes>, NoMemory>
    ensures { IfOk result (λ hands. hands.items ≡ replicate 8 []) }
{
    let mut hands = Vec::new(alloc);
    for t in 0..8u8 {
        hands.push(Passes {
            items: Vec::new(alloc),
        })?;
    }
    Ok(hands)
}

// The next pass to each hand.
fn hand_out(hands: &mut Vec<Passes>, passes: Vec<Pass>) -> Result<(), NoMemory>
    requires { length passes.items ≡ length hands.old.items }
    ensures count { length hands.new.items ≡ length hands.old.items }
    ensures each { OnOk result ((t : ℕ) → t < length hands.old.items
        → slice_index_or hands.new.items t []
        ≡ slice_index_or hands.old.items t [] ++ slice_index_or passes.items t nothing ∷ []) }
{
    let mut t = 0;
    for pass in passes {
        let hand = &mut hands[t];
        hand.items.push(pass)?;
        t += 1;
    }
    Ok(())
}
