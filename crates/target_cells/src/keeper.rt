//! The keeper of the stores.
use std::marker::Model;
use version_cell::Pass;

/// The only author of the cells: it has number 0 in each. To a contract it is the list of what its passes know, in the order of
/// the readers.
#[derive(Drop)]
pub struct Keeper {
    pub(crate) items: Vec<Pass>,
}

impl Model for Keeper {
    ghost use Rattle.std.specs.Prelude.{List};
    ghost use Rattle.version_cell.specs.Known.{Known};

    ghost Value = { List Known };

    ghost use Rattle.target_cells.specs.Keeping.{AreKeepers};

    ghost view = { λ k. k.items.items };

    ghost invariant = { λ k. AreKeepers k.items.items };
}

impl Keeper {
    ghost use Rattle.std.specs.Prelude.{◌≡◌, ◌<◌, length};
    ghost use Rattle.version_cell.specs.Passes.{SeesLawful};
    ghost use Rattle.version_cell.specs.Sets.{pass_at};
    ghost use Rattle.target_cells.specs.Keeping.{IsKeeper};

    /// The pass by which it stores a reader's rows: it has seen each store, and its row is the last one's.
    pub fn pass(&self, reader: u8) -> &Pass
        requires { reader < length self.now }
        ensures pass { result.now ≡ pass_at self.entry.now reader }
        ensures lawful { SeesLawful (pass_at self.entry.now reader) }
        ensures keeper { IsKeeper (pass_at self.entry.now reader) }
    {
        let pass = &self.items[usize::from(reader)];
        let _row = pass.row();
        pass
    }
}
