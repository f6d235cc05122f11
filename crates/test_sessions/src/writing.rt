//! Writes of a session's data set, each by another thread.
ghost use Rattle.std.specs.Prelude.{All, IfOk};
ghost use Rattle.row_words.specs.Patches.{IsPatchOf};
ghost use Rattle.test_sessions.specs.Devices.{IsBank, IsHand};

use cell_bank::Bank;
use dataset_meta::Meta;
use row_words::Patch;
use std::sync::Wait;
use std::test::Fail;
use ua_values::Value;
use version_cell::{Passes, Placed};

/// The next thread gives the first field this number. The answer is the version.
pub(crate) fn write_next<R: Wait>(
    rt: &R,
    bank: &Bank,
    meta: &Meta,
    hands: &mut Vec<Passes>,
    number: u32,
) -> Result<u64, Fail>
    requires bank { IsBank meta.now bank.now }
    requires hands { All (IsHand bank.now) hands.old.items }
    ensures hands { All (IsHand bank.now) hands.new.items }
{
    let patch = patch_of(meta, number)?;
    let Some(mut passes) = hands.pop() else {
        return Err("no thread is left".into());
    };
    match bank.write(rt, 0, &mut passes, &patch) {
        Placed::Wrote(version) => Ok(version),
        Placed::Full { .. } => Err("no write is left".into()),
    }
}

fn patch_of(meta: &Meta, number: u32) -> Result<Patch, Fail>
    ensures { IfOk result (IsPatchOf meta.now) }
{
    let mut patch = Patch::empty_of(meta);
    if patch.try_put(meta, 0, &Value::UInt32(number), 0) {
        Ok(patch)
    } else {
        Err("the number doesn't fit".into())
    }
}
