//! The making of targets.
ghost use Rattle.std.specs.Prelude.{◌≡◌, ◌<◌, ◌^◌, length, map, All, Some, None, IfOk};
ghost use Rattle.version_cell.specs.Sets.{ArePassesOf, new_passes};
ghost use Rattle.version_cell.specs.Cells.{IsCell};
ghost use Rattle.target_cells.specs.Keeping.{AreKept, metas_of};

use crate::keeper::Keeper;
use crate::targets::Targets;
use dataset_meta::Meta;
use std::alloc::Global;
use std::sync::Wait;
use ua_base::NoMemory;
use version_cell::{Cell, Passes};

impl Targets {
    /// A cell for each reader, of rows of the meta of its data set, with the keeper that may make so many stores of each and is
    /// the only author, and passes that look. All have seen the opening rows alone.
    pub fn new<R: Wait>(
        rt: &R,
        alloc: Global,
        metas: &[Meta],
        readers: &[u8],
        limit: u64,
    ) -> Result<(Targets, Keeper, Passes), NoMemory>
        requires limit { limit < 2 ^ 63 }
        requires readers { All (λ set. set < length metas.now) readers.now }
        ensures limit { IfOk result (λ made. made.0.limit ≡ limit) }
        ensures kept { IfOk result (λ made. AreKept made.0) }
        ensures cells { IfOk result (λ made. All IsCell made.0.cells) }
        ensures metas { IfOk result
            (λ made. map (λ cell. cell.meta) made.0.cells ≡ metas_of metas.now readers.now) }
        ensures keeper { IfOk result (λ made. made.1 ≡ new_passes made.0.cells (Some 0)) }
        ensures looks { IfOk result (λ made. made.2 ≡ new_passes made.0.cells None) }
        ensures own { IfOk result
            (λ made. ArePassesOf made.0.cells made.1 × ArePassesOf made.0.cells made.2) }
    {
        let mut cells = Vec::new(alloc);
        let mut stores = Vec::new(alloc);
        let mut looks = Vec::new(alloc);
        for k in 0..readers.len() {
            let meta = &metas[usize::from(readers[k])];
            let (cell, look, mut passes) = Cell::new(
                rt,
                alloc,
                meta,
                &[limit, 0, 0, 0, 0, 0, 0, 0],
            )?;
            cells.push(cell)?;
            stores.push(passes.remove(0))?;
            looks.push(look)?;
        }
        Ok((
            Targets { cells, limit },
            Keeper { items: stores },
            Passes { items: looks },
        ))
    }
}
