//! Sets of passes.
use crate::pass::Pass;
use std::marker::Model;

/// One pass for each of several cells. To a contract it is the list of what they know, in the order of the cells.
#[derive(Drop)]
pub struct Passes {
    /// The passes, in the order of the cells.
    pub items: Vec<Pass>,
}

impl Model for Passes {
    ghost use Rattle.std.specs.Prelude.{List};
    ghost use Rattle.version_cell.specs.Known.{Known};

    ghost Value = { List Known };

    ghost view = { λ p. p.items.items };
}

impl Passes {
    ghost use Rattle.std.specs.Prelude.{◌≡◌, ◌<◌, length};
    ghost use Rattle.version_cell.specs.Passes.{SeesLawful};
    ghost use Rattle.version_cell.specs.Sets.{pass_at};

    /// The pass of a cell.
    pub fn pass(&self, index: u8) -> &Pass
        requires { index < length self.now }
        ensures pass { result.now ≡ pass_at self.entry.now index }
        ensures lawful { SeesLawful (pass_at self.entry.now index) }
    {
        let pass = &self.items[usize::from(index)];
        let _row = pass.row();
        pass
    }
}
