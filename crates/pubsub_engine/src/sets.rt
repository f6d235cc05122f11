//! The data sets of a session.
ghost use Rattle.std.specs.Prelude.{◌≡◌, ◌<◌, ◌≤◌, ◌+◌, ◌∷◌, [], drop, IfOk, OnOk, length, map, slice_index_or, slice_set, ◌^◌};
ghost use Rattle.dataset_meta.specs.Metas.{MayGrow};
ghost use Rattle.writer_group.specs.Standing.{IsGood};
ghost use Rattle.session_model.specs.Sets.{meta_in};
ghost use Rattle.pubsub_engine.specs.Holding.{AreAppends, HoldSets, IsGrowthBy, full_of, grown_by};

use crate::size::Append;
use dataset_meta::{Meta, copies};
use ps_config::Config;
use std::alloc::Global;
use std::mem;
use ua_base::NoMemory;

/// The data sets as they are now and with all fields that will be appended, and what the next appended fields make of them.
#[derive(Drop)]
pub(crate) struct Sets {
    pub(crate) metas: Vec<Meta>,
    pub(crate) full: Vec<Meta>,
    /// For each append the data set and what it is after it; once it is made, what it was before.
    later: Vec<Growth>,
    /// How many appends were made.
    made: usize,
}

#[derive(Drop)]
struct Growth {
    set: u8,
    meta: Meta,
}

impl Sets {
    /// Before the first append.
    pub(crate) fn new(alloc: Global, config: &Config, appends: &[Append]) -> Result<Sets, NoMemory>
        requires good { IsGood config.now }
        requires appends { AreAppends config.now config.now.dataset appends.now }
        ensures holds { IfOk result (HoldSets config.now) }
        ensures first { IfOk result (λ sets. sets.metas.items ≡ config.now.dataset) }
        ensures full { IfOk result
            (λ sets. sets.full.items ≡ full_of config.now.dataset appends.now) }
        ensures later { IfOk result (λ sets. map (λ growth. growth.set) sets.later.items
            ≡ map (λ append. append.set) appends.now) }
        ensures none { IfOk result (λ sets. sets.made ≡ 0) }
    {
        let mut full = copies(alloc, config.dataset.as_slice())?;
        let mut later = Vec::with_capacity(alloc, appends.len())?;
        for append in appends {
            later.push(grow(alloc, &mut full, append)?)?;
        }
        Ok(Sets {
            metas: copies(alloc, config.dataset.as_slice())?,
            full,
            later,
            made: 0,
        })
    }

    /// The next append takes effect; its data set.
    pub(crate) fn append(&mut self) -> u8
        requires left { self.old.made < length self.old.later.items }
        requires there { (d : Growth)
            → (slice_index_or self.old.later.items self.old.made d).set
            < length self.old.metas.items }
        ensures metas { (d : Growth)
            → let growth = slice_index_or self.old.later.items self.old.made d in
            (self.new.metas.items ≡ slice_set self.old.metas.items growth.set growth.meta)
            × (result ≡ growth.set) }
        ensures made { self.new.made ≡ self.old.made + 1 }
        ensures full { self.new.full ≡ self.old.full }
        ensures count { length self.new.later.items ≡ length self.old.later.items }
        ensures later { drop (self.old.made + 1) self.new.later.items
            ≡ drop (self.old.made + 1) self.old.later.items }
    {
        let growth = &mut self.later[self.made];
        let set = growth.set;
        mem::swap(&mut self.metas[usize::from(set)], &mut growth.meta);
        self.made += 1;
        set
    }
}

/// An append takes effect among all data sets.
fn grow(alloc: Global, metas: &mut Vec<Meta>, append: &Append) -> Result<Growth, NoMemory>
    requires there { append.now.set < length metas.old.items }
    requires may { MayGrow (meta_in metas.old.items append.now.set) append.now.field }
    ensures metas { OnOk result (metas.new.items ≡ grown_by metas.old.items append.now) }
    ensures growth { IfOk result (λ growth. IsGrowthBy metas.old.items append.now growth) }
{
    let set = usize::from(append.set);
    let Some(meta) = metas[set].grown(alloc, append.field)? else {
        unreachable!()
    };
    metas[set] = meta.copy(alloc)?;
    Ok(Growth {
        set: append.set,
        meta,
    })
}
