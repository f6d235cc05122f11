//! Samples of the data sets.
ghost use Rattle.std.specs.Prelude.{◌≡◌, ◌<◌, ◌≤◌, ℕ, List, All, IfOk, length, map, replicate, vec_len};
ghost use Rattle.std.specs.List.{AllZip};
ghost use Rattle.dataset_meta.specs.Metas.{HasGrown, IsMeta, MetaData};
ghost use Rattle.row_words.specs.Belonging.{Belongs};
ghost use Rattle.version_cell.specs.Passes.{SeesMore};
ghost use Rattle.version_cell.specs.Sets.{ArePassesOf, EachSeesLawful, pass_at};
ghost use Rattle.session_model.specs.Sets.{AreRowsOf, GrowTo, cut_sample, rows_cut};
ghost use Rattle.pubsub_engine.specs.Standing.{opening_sample, sample_of, samples_of};

use crate::sets::Sets;
use cell_bank::Bank;
use dataset_meta::Meta;
use row_words::Row;
use std::alloc::Global;
use std::sync::Wait;
use ua_base::NoMemory;
use version_cell::Passes;
use writer_group::Sampled;

/// What the session has seen of the data sets, the last sample, and the rows of a tick.
#[derive(Drop)]
pub(crate) struct Samples {
    pub(crate) passes: Passes,
    /// One sampled row for each data set, with all its fields.
    taken: Vec<Sampled>,
    /// The sampled rows, cut to the fields of a moment.
    pub(crate) cut: Vec<Sampled>,
}

impl Samples {
    /// Before the first sample: the opening rows.
    pub(crate) fn new(alloc: Global, passes: Passes, sets: usize) -> Result<Samples, NoMemory>
        ensures passes { IfOk result (λ samples. samples.passes ≡ passes) }
        ensures taken { IfOk result
            (λ samples. samples.taken.items ≡ replicate sets opening_sample) }
        ensures rows { IfOk result (λ samples. (full : List MetaData) → length full ≡ sets
            → All (λ meta. IsMeta meta.fields) full → AreRowsOf full samples.taken.items) }
        ensures cut { IfOk result (λ samples. vec_len samples.cut ≡ sets) }
    {
        Ok(Samples {
            passes,
            taken: vec![in alloc; opening(); sets]?,
            cut: vec![in alloc; opening(); sets]?,
        })
    }

    /// One read of each cell, in the order of the data sets.
    pub(crate) fn take<R: Wait>(&mut self, rt: &R, bank: &Bank)
        requires few { vec_len self.old.taken ≤ 8 }
        requires count { length bank.now ≡ vec_len self.old.taken }
        requires own { ArePassesOf bank.now self.old.passes }
        ensures taken { self.new.taken.items ≡ samples_of self.new.passes }
        ensures more { (set : ℕ) → set < length self.old.passes
            → SeesMore (pass_at self.old.passes set) (pass_at self.new.passes set) }
        ensures lawful { EachSeesLawful self.new.passes }
        ensures own { ArePassesOf bank.now self.new.passes }
        ensures cut { self.new.cut ≡ self.old.cut }
    {
        for set in 0..self.taken.len() as u8 {
            bank.read(rt, &mut self.passes, set);
            self.taken[usize::from(set)] = sample_of(&self.passes, set);
        }
    }

    /// How many writes of a data set the passes have seen.
    pub(crate) fn version(&self, set: u8) -> u64
        requires { set < length self.now.passes }
        ensures { result ≡ length (pass_at self.now.passes set).seen }
    {
        self.passes.pass(set).version()
    }

    /// Cuts the last sample to the fields that the data sets have now.
    pub(crate) fn cut_to(&mut self, sets: &Sets)
        requires few { vec_len sets.now.metas ≤ 8 }
        requires count { vec_len self.old.cut ≡ vec_len sets.now.metas }
        requires rows { AreRowsOf sets.now.full.items self.old.taken.items }
        requires grow { GrowTo sets.now.metas.items sets.now.full.items }
        ensures cut { self.new.cut.items
            ≡ rows_cut sets.now.metas.items sets.now.full.items self.old.taken.items }
        ensures belong { AllZip (λ meta sampled. Belongs meta sampled.row.words)
            sets.now.metas.items self.new.cut.items }
        ensures rest { self.new ≡ record self.old { cut = self.new.cut } }
    {
        for set in 0..sets.metas.len() {
            self.cut[set] = cut_sample(&sets.metas[set], &sets.full[set], &self.taken[set]);
        }
    }
}

/// The opening row, of no write.
fn opening() -> Sampled
    ensures opening { result ≡ opening_sample }
    ensures belongs { (meta : MetaData) → IsMeta meta.fields → Belongs meta result.row.words }
{
    Sampled {
        row: Row::opening(),
        version: 0,
    }
}

/// What the passes have seen of a data set.
fn sample_of(passes: &Passes, set: u8) -> Sampled
    requires { set < length passes.now }
    ensures { result ≡ sample_of (pass_at passes.now set) }
{
    let pass = passes.pass(set);
    Sampled {
        row: *pass.row(),
        version: pass.version(),
    }
}

/// A sampled row, cut to the fields that its data set has now.
fn cut_sample(now: &Meta, full: &Meta, sampled: &Sampled) -> Sampled
    requires row { Belongs full.now sampled.now.row.words }
    requires grown { HasGrown now.now full.now }
    ensures cut { result ≡ cut_sample now.now full.now sampled.now }
    ensures belongs { Belongs now.now result.row.words }
{
    Sampled {
        row: sampled.row.first(full, now),
        version: sampled.version,
    }
}
