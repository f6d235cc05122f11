//! What was collected of the sources' targets.
ghost use Rattle.std.specs.Prelude.{◌≡◌, ◌<◌, ◌≤◌, ◌++◌, [], ◌∷◌, ℕ, List, All, IfOk, length, map, vec_len, vec_capacity};
ghost use Rattle.std.specs.List.{HoldsAt};
ghost use Rattle.dataset_meta.specs.Metas.{IsMeta, MetaData};
ghost use Rattle.row_words.specs.Belonging.{Belongs};
ghost use Rattle.version_cell.specs.Sets.{pass_at};
ghost use Rattle.session_model.specs.Sets.{AreRowsOf};
ghost use Rattle.gateway_core.specs.Lived.{GatewayStep, Collect, collected, first_version, last_store, opening_sample, sample_of, version_by, version_in};
ghost use Rattle.gateway_core.specs.Holding.{HasRoom};
ghost use Rattle.gateway_core.specs.Standing.{HaveKept, KeepsOn, versions_in};

use row_words::Row;
use std::alloc::Global;
use target_cells::Origin;
use ua_base::NoMemory;
use version_cell::Passes;
use writer_group::Sampled;

/// The last sample of each data set of the gateway, and the versions of its source's stores.
#[derive(Drop)]
pub(crate) struct Collected {
    /// The reader of the first configuration that each data set comes from, by its index over all
    /// read groups.
    sources: Vec<u8>,
    /// One sampled row for each data set.
    pub(crate) samples: Vec<Sampled>,
    pub(crate) versions: Vec<Versions>,
    /// The versions of so many stores of each source are kept, those of the first, beside that of
    /// store 0; and so many data frames by each writer.
    pub(crate) logged: u32,
}

impl Collected {
    /// Before anything was collected: the opening rows. There is room for so many versions of each
    /// source's stores.
    pub(crate) fn new(alloc: Global, sources: Vec<u8>, logged: u32) -> Result<Collected, NoMemory>
        ensures sources { IfOk result (λ made. made.sources.items ≡ sources.items) }
        ensures samples { IfOk result (λ made. made.samples.items
            ≡ map (λ source. opening_sample) sources.items) }
        ensures rows { IfOk result (λ made. (metas : List MetaData)
            → length metas ≡ length sources.items → All (λ meta. IsMeta meta.fields) metas
            → AreRowsOf metas made.samples.items) }
        ensures count { IfOk result (λ made. length made.versions.items ≡ length sources.items) }
        ensures kept { IfOk result (λ made. HaveKept logged sources.items [] made.versions.items) }
        ensures room { IfOk result (λ made. (set : ℕ) → set < length sources.items
            → HoldsAt (HasRoom logged) made.versions.items set) }
        ensures logged { IfOk result (λ made. made.logged ≡ logged) }
    {
        let samples = vec![in alloc; opening(); sources.len()]?;
        let versions = all_versions(alloc, sources.len(), logged)?;
        Ok(Collected {
            sources,
            samples,
            versions,
            logged,
        })
    }

    /// Takes the row of each source's target that the passes have seen, with its count of stores,
    /// and keeps the version of this store where it is one of the first.
    pub(crate) fn take(&mut self, passes: &Passes, origins: &[Origin])
        requires few { vec_len self.old.sources ≤ 8 }
        requires samples { length self.old.samples.items ≡ length self.old.sources.items }
        requires versions { length self.old.versions.items ≡ length self.old.sources.items }
        requires passes { All (λ source. source < length passes.now) self.old.sources.items }
        requires origins { All (λ source. source < length origins.now) self.old.sources.items }
        requires room { (set : ℕ) → set < length self.old.sources.items
            → HoldsAt (HasRoom self.old.logged) self.old.versions.items set }
        ensures sources { self.new.sources.items ≡ self.old.sources.items }
        ensures samples { self.new.samples.items
            ≡ collected self.old.sources.items passes.now }
        ensures count { length self.new.versions.items ≡ length self.old.versions.items }
        ensures kept { (lived : List GatewayStep)
            → HaveKept self.old.logged self.old.sources.items lived self.old.versions.items
            → HaveKept self.old.logged self.old.sources.items
            (Collect passes.now origins.now ∷ lived) self.new.versions.items }
        ensures room { (set : ℕ) → set < length self.old.sources.items
            → HoldsAt (HasRoom self.old.logged) self.new.versions.items set }
        ensures logged { self.new.logged ≡ self.old.logged }
    {
        for set in 0..self.sources.len() {
            let source = self.sources[set];
            self.samples[set] = sample_of(passes, source);
            self.versions[set].note(&origins[usize::from(source)], self.logged);
        }
    }
}

/// The opening row, of no store.
fn opening() -> Sampled
    ensures opening { result ≡ opening_sample }
    ensures belongs { (meta : MetaData) → IsMeta meta.fields → Belongs meta result.row.words }
{
    Sampled {
        row: Row::opening(),
        version: 0,
    }
}

/// What the passes have seen of a target.
fn sample_of(passes: &Passes, reader: u8) -> Sampled
    requires { reader < length passes.now }
    ensures { result ≡ sample_of (pass_at passes.now reader) }
{
    let pass = passes.pass(reader);
    Sampled {
        row: *pass.row(),
        version: pass.version(),
    }
}

/// A store, with the version that it came with where it is known.
#[derive(Clone, Copy, Debug)]
pub(crate) struct StoreVersion {
    store: u64,
    version: Option<u64>,
}

/// The first stores of a source that were collected, in order.
#[derive(Drop)]
pub(crate) struct Versions {
    kept: Vec<StoreVersion>,
}

/// The opening rows' versions, with room for so many more of each.
fn all_versions(alloc: Global, count: usize, most: u32) -> Result<Vec<Versions>, NoMemory>
    ensures count { IfOk result (λ versions. length versions.items ≡ count) }
    ensures each { IfOk result (λ versions. All (λ one. versions_in one ≡ first_version ∷ [])
        versions.items) }
    ensures room { IfOk result (λ versions. All (HasRoom most) versions.items) }
{
    let mut versions = Vec::new(alloc);
    for made in 0..count {
        versions.push(Versions::new(alloc, most)?)?;
    }
    Ok(versions)
}

impl Versions {
    /// That of store 0, the opening row, with room for so many more.
    fn new(alloc: Global, most: u32) -> Result<Versions, NoMemory>
        ensures first { IfOk result (λ versions. versions_in versions ≡ first_version ∷ []) }
        ensures room { IfOk result (HasRoom most) }
    {
        let mut kept = Vec::with_capacity(alloc, most as usize + 1)?;
        kept.push(StoreVersion {
            store: 0,
            version: Some(0),
        })?;
        Ok(Versions { kept })
    }

    /// Keeps the version of a store, where it is another than the last, and fewer are kept than
    /// `most` beside that of store 0.
    fn note(&mut self, origin: &Origin, most: u32)
        requires room { HasRoom most self.old }
        ensures kept { KeepsOn most (version_by origin.now) self.old self.new }
        ensures room { HasRoom most self.new }
    {
        if self.kept.len() > most as usize {
            return;
        }
        if origin.store == self.last_store() {
            return;
        }
        self.push(StoreVersion {
            store: origin.store,
            version: origin.version,
        });
    }

    fn last_store(&self) -> u64
        ensures { result ≡ last_store (versions_in self.now) }
    {
        match self.kept.last() {
            Some(last) => last.store,
            None => 0,
        }
    }

    fn push(&mut self, version: StoreVersion)
        requires room { vec_len self.old.kept < vec_capacity self.old.kept }
        ensures kept { self.new.kept.items ≡ self.old.kept.items ++ version ∷ [] }
        ensures capacity { vec_capacity self.old.kept ≤ vec_capacity self.new.kept }
    {
        match self.kept.push(version) {
            Ok(()) => {}
            Err(_) => unreachable!(),
        }
    }

    /// The version of a store: none where it wasn't kept, or its version isn't known.
    pub(crate) fn version_of(&self, store: u64) -> Option<u64>
        ensures { result ≡ version_in (versions_in self.now) store }
    {
        let mut version = None;
        for kept in &self.kept {
            if kept.store == store {
                version = kept.version;
            }
        }
        version
    }
}
