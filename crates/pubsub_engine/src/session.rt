//! A session over a link: samples, ticks and pumps.
ghost use Rattle.std.specs.Prelude.{◌≡◌, ◌≤◌, ◌<◌, ◌+◌, ◌-◌, ◌||◌, nat_lt, ◌∷◌, ◌↔◌, IsTrue, IsSome, IfOk, IfSome, ℕ, List, Bool, true, false, count_by, length, map, slice_get, Some};
ghost use Rattle.dataset_meta.specs.declared.field.Field.{Field};
ghost use Rattle.ua_base.specs.Journal.{Entry};
ghost use Rattle.ua_base.specs.Links.{KeepsLink};
ghost use Rattle.ps_config.specs.Sound.{readers};
ghost use Rattle.version_cell.specs.Passes.{SeesMore, shared_by};
ghost use Rattle.version_cell.specs.Sets.{ArePassesOf, EachSeesLawful, JoinEach, pass_at};
ghost use Rattle.target_cells.specs.Keeping.{AreLevel};
ghost use Rattle.session_model.specs.Steps.{Plan, Step, Append as AppendStep, Tick, Pump};
ghost use Rattle.session_model.specs.Counts.{most_taken};
ghost use Rattle.session_model.specs.Closing.{MemberPlace, is_datagram, reader_places};
ghost use Rattle.session_model.specs.Deeds.{logs_cut};
ghost use Rattle.pubsub_engine.specs.Holding.{AddsOneAtMost, AreTargetsOf, ChangesSamples, ChangesStores, CountsPump, CountsTick, IsBankOf, IsRunning, IsSession, KeepsPasses, KeepsWholeLogs, MayAppendNext, MayPump, MayTick, appends_left, keeper_of, left_of, logged_of, passes_of, plan_of, tells_versions};
ghost use Rattle.session_model.specs.Lives.{Lived, Stepped, account_in, log_in};
ghost use Rattle.pubsub_engine.specs.LifeEnds.{logs_in};
ghost use Rattle.pubsub_engine.specs.Logs.{logs_told};
ghost use Rattle.pubsub_engine.specs.Living.{KeepsLife, LeadsIn, StandsIn};
ghost use Rattle.pubsub_engine.specs.Standing.{IsOriginFrom, IsOriginWith, IsOriginOf, KeepsStands, Leads, Stands, sampled_by, samples_of};
ghost use Rattle.session_parts.specs.Ticking.{HaltsTick, HaltsTickIn};

use crate::sampling::Samples;
use crate::sets::Sets;
use crate::storing::Stores;
use cell_bank::Bank;
use ps_config::Config;
use session_parts::{Round, Told};
use std::alloc::Global;
use std::sync::Wait;
use target_cells::{Origin, Targets};
use ua_base::{Link, NoMemory, Pumped, Ticked};
use version_cell::{Passes, histories_are_the_models};

/// What may still come.
#[derive(Clone, Copy, Debug)]
pub(crate) struct Left {
    /// Ticks, the closing one included.
    pub(crate) ticks: u64,
    /// Pumps of ticks that came.
    pub(crate) pumps: u64,
    /// How many stores a target may have.
    pub(crate) stores: u64,
    /// How many data frames the log of each writer keeps, the first ones.
    pub(crate) logged: u32,
    /// Whether the closing tick came.
    pub(crate) is_closed: bool,
}

impl Left {
    /// Whether the version of a row that a reader holds is told by its number. It is where each data frame of a writer has one of
    /// its own, since at most 65,536 ticks may come, the closing one included. It is too where the logs keep all data frames.
    pub(crate) fn tells_versions(&self) -> bool
        ensures { result
            ≡ (nat_lt (self.now.stores - 1) 65536 || nat_lt (self.now.stores - 1) self.now.logged) }
    {
        self.stores <= 65_536 || self.stores <= u64::from(self.logged)
    }
}

/// A session of a configuration. All its memory was taken when it was opened.
#[derive(Drop)]
pub struct Session<'c> {
    pub(crate) config: &'c Config,
    pub(crate) left: Left,
    pub(crate) sets: Sets,
    pub(crate) samples: Samples,
    pub(crate) round: Round,
    pub(crate) stores: Stores,
}

impl<'c> Session<'c> {
    /// Takes a sample for the next tick: one read of each cell, in the order of the data sets.
    pub fn sample<R: Wait>(&mut self, rt: &R, bank: &Bank)
        requires session { IsSession self.old }
        requires bank { IsBankOf self.old bank.now }
        ensures session { IsSession self.new }
        ensures bank { IsBankOf self.new bank.now }
        ensures sampled { sampled_by self.new ≡ samples_of (passes_of self.new) }
        ensures more { (set : ℕ) → set < length (passes_of self.old)
            → SeesMore (pass_at (passes_of self.old) set) (pass_at (passes_of self.new) set) }
        ensures lawful { EachSeesLawful (passes_of self.new) }
        ensures rest { ChangesSamples self.old self.new }
        ensures stands { KeepsStands self.old self.new }
        ensures lives { KeepsLife self.old self.new }
    {
        histories_are_the_models();
        self.samples.take(rt, bank);
    }

    /// Takes in what a thread's passes have seen.
    pub fn meet<R: Wait>(&mut self, rt: &R, bank: &Bank, passes: Passes)
        requires session { IsSession self.old }
        requires bank { IsBankOf self.old bank.now }
        requires passes { ArePassesOf bank.now passes }
        ensures session { IsSession self.new }
        ensures bank { IsBankOf self.new bank.now }
        ensures joins { JoinEach (passes_of self.old) passes (passes_of self.new) }
        ensures lawful { EachSeesLawful (passes_of self.new) }
        ensures sampled { sampled_by self.new ≡ sampled_by self.old }
        ensures rest { ChangesSamples self.old self.new }
        ensures stands { KeepsStands self.old self.new }
        ensures lives { KeepsLife self.old self.new }
    {
        bank.join(rt, &mut self.samples.passes, passes);
    }

    /// Passes that have seen what the session has. An error says that memory ran out.
    pub fn share(&mut self, alloc: Global, bank: &Bank) -> Result<Passes, NoMemory>
        requires session { IsSession self.old }
        requires bank { IsBankOf self.old bank.now }
        ensures session { IsSession self.new }
        ensures bank { IsBankOf self.new bank.now }
        ensures same { passes_of self.new ≡ passes_of self.old }
        ensures given { IfOk result (λ given. given ≡ map shared_by (passes_of self.old)) }
        ensures own { IfOk result (λ given. ArePassesOf bank.now given) }
        ensures sampled { sampled_by self.new ≡ sampled_by self.old }
        ensures rest { ChangesSamples self.old self.new }
        ensures stands { KeepsStands self.old self.new }
        ensures lives { KeepsLife self.old self.new }
    {
        bank.split(alloc, &mut self.samples.passes)
    }

    /// The passes see exactly the stores that there are.
    pub fn level<R: Wait>(&mut self, rt: &R, targets: &Targets, looks: &mut Passes)
        requires session { IsSession self.old }
        requires targets { AreTargetsOf self.old targets.now }
        requires own { ArePassesOf targets.now.cells looks.old }
        ensures session { IsSession self.new }
        ensures targets { AreTargetsOf self.new targets.now }
        ensures same { keeper_of self.new ≡ keeper_of self.old }
        ensures level { AreLevel (keeper_of self.old) looks.old looks.new }
        ensures lawful { EachSeesLawful looks.new }
        ensures own { ArePassesOf targets.now.cells looks.new }
        ensures rest { ChangesStores self.old self.new }
        ensures stands { KeepsStands self.old self.new }
        ensures lives { KeepsLife self.old self.new }
    {
        targets.level(rt, &mut self.stores.keeper, looks);
    }

    /// A tick with the last sample. Time goes on by so many milliseconds, an hour at most. Each sender turns to the moment, and a
    /// new token refreshes its groups' writers. Timers expire. Each group's send fault is cleared. Each Operational group that is
    /// due (at the closing tick each Operational one) has its turn, and its datagrams are sent once each, in order. Want of memory
    /// comes from a send of the link alone; what was done before it stands.
    pub fn tick<L: Link>(&mut self, ms: u64, closing: bool, link: &mut L) -> Ticked
        requires open { IsSome (L.opened_with link.old) }
        requires may { MayTick ms closing self.old }
        ensures session { IsSession self.new }
        ensures left { CountsTick closing (left_of self.old) (left_of self.new) }
        ensures leads { result ≡ Ticked.Done
            → (p : Plan) (steps : List Step) → Stands p steps self.old
            → (done : List Bool) × Leads p steps (Tick ms closing (sampled_by self.old) done)
            (L.told link.old) (L.told link.new) self.new }
        ensures halted { result ≡ Ticked.Memory
            → (p : Plan) (steps : List Step) → Stands p steps self.old
            → HaltsTick p steps ms closing (sampled_by self.old)
            (L.told link.old) (L.told link.new) }
        ensures lives { result ≡ Ticked.Done
            → (p : Plan) (life : List Lived) → StandsIn p life self.old
            → (done : List Bool) × LeadsIn p life (Tick ms closing (sampled_by self.old) done)
            (L.told link.old) (L.told link.new) self.new }
        ensures halted_lives { result ≡ Ticked.Memory
            → (p : Plan) (life : List Lived) → StandsIn p life self.old
            → HaltsTickIn p life ms closing (sampled_by self.old)
            (L.told link.old) (L.told link.new) }
        ensures passes { KeepsPasses self.old self.new }
        ensures appends { appends_left self.new ≡ appends_left self.old }
        ensures memory { result ≡ Ticked.Memory → IsTrue L.takes_memory }
        ensures link { KeepsLink L.told L.patience L.opened_with L.faults L.made L.openings
            0 link.old link.new }
    {
        self.left.ticks -= 1;
        self.left.pumps += 1;
        self.left.is_closed = closing;
        self.samples.cut_to(&self.sets);
        let moment = self.round.moment + ms;
        let told = Told {
            config: self.config,
            metas: &self.sets.metas,
            rows: &self.samples.cut,
            moment,
            closing,
        };
        self.round.tick(&told, link)
    }

    /// Receives what came, until nothing waits, a receive fails or 65,536 datagrams were taken; each goes to each Operational
    /// read group in order. Then each reader that holds the row of another number than its last store's, or without numbering
    /// another row, is stored once.
    pub fn pump<R: Wait, L: Link>(&mut self, rt: &R, link: &mut L, targets: &Targets) -> Pumped
        requires open { IsSome (L.opened_with link.old) }
        requires may { MayPump self.old }
        requires targets { AreTargetsOf self.old targets.now }
        ensures session { IsSession self.new }
        ensures targets { AreTargetsOf self.new targets.now }
        ensures left { CountsPump (left_of self.old) (left_of self.new) }
        ensures leads { (p : Plan) (steps : List Step) → Stands p steps self.old
            → (entries : List Entry)
            × Leads p steps (Pump entries) (L.told link.old) (L.told link.new) self.new
            × (result.taken ≡ count_by is_datagram entries) }
        ensures lives { (p : Plan) (life : List Lived) → StandsIn p life self.old
            → (entries : List Entry)
            × LeadsIn p life (Pump entries) (L.told link.old) (L.told link.new) self.new
            × (result.taken ≡ count_by is_datagram entries) }
        ensures limit { IsTrue result.limit ↔ (result.taken ≡ most_taken) }
        ensures stored { (reader : ℕ) → reader < length (keeper_of self.old)
            → AddsOneAtMost
            (pass_at (keeper_of self.old) reader) (pass_at (keeper_of self.new) reader) }
        ensures passes { passes_of self.new ≡ passes_of self.old }
        ensures sampled { sampled_by self.new ≡ sampled_by self.old }
        ensures plan { plan_of self.new ≡ plan_of self.old }
        ensures appends { appends_left self.new ≡ appends_left self.old }
        ensures link { KeepsLink L.told L.patience L.opened_with L.faults L.made L.openings
            1 link.old link.new }
    {
        self.left.pumps -= 1;
        let pumped = self.round.pump(self.config, link);
        self.stores
            .store_all(rt, self.config, &self.round.subscriber, targets);
        pumped
    }

    /// The next append of the session's size takes effect: its data set has a field more, and each of its writers is refreshed.
    /// The answer is the data set.
    pub fn append(&mut self) -> u8
        requires may { MayAppendNext self.old }
        ensures session { IsSession self.new }
        ensures appended { (p : Plan) (steps : List Step) → Stands p steps self.old
            → (field : Field) × Stands p (AppendStep result field ∷ steps) self.new }
        ensures lives { (p : Plan) (life : List Lived) → StandsIn p life self.old
            → (field : Field) × StandsIn p (Stepped (AppendStep result field) ∷ life) self.new }
        ensures next { appends_left self.old ≡ result ∷ appends_left self.new }
        ensures left { left_of self.new ≡ left_of self.old }
        ensures rest { KeepsPasses self.old self.new }
    {
        let set = self.sets.append();
        self.round.publisher.refresh_set(self.config, set);
        set
    }

    /// Where a reader's last store comes from: how many stores it has, and for the last the number of its message and a version.
    /// The version is the one that the log of this program's writer has at the number, of the data frames that the log keeps. The
    /// reader is named by its index over all read groups. A number has 16 bits. Where logs are cut, of a session in which more than
    /// 65,536 ticks may come, the closing one included, a number may be that of a data frame that the log keeps and of one that it
    /// doesn't. So no version is told there but that of the opening row, 0.
    pub fn origin(&self, reader: u8) -> Origin
        requires session { IsSession self.now }
        requires there { reader < length (readers (plan_of self.now).config) }
        ensures origin { (p : Plan) (steps : List Step) (place : MemberPlace)
            → Stands p steps self.now → slice_get (reader_places p.config) reader ≡ Some place
            → let logs = logs_cut (logged_of self.now) p steps in
            IsOriginWith (logs_told (tells_versions self.now) logs) p steps place result }
        ensures whole { KeepsWholeLogs self.now
            → (p : Plan) (steps : List Step) (place : MemberPlace)
            → Stands p steps self.now → slice_get (reader_places p.config) reader ≡ Some place
            → IsOriginOf p steps place result }
        ensures lives { (p : Plan) (life : List Lived) (place : MemberPlace)
            → StandsIn p life self.now → slice_get (reader_places p.config) reader ≡ Some place
            → let logs = logs_in (logged_of self.now) p life in
            IsOriginFrom (logs_told (tells_versions self.now) logs) p place
            ((account_in p life).stores place.0 place.1) result }
        ensures whole_lives { KeepsWholeLogs self.now
            → (p : Plan) (life : List Lived) (place : MemberPlace)
            → StandsIn p life self.now → slice_get (reader_places p.config) reader ≡ Some place
            → IsOriginFrom (log_in p life) p place
            ((account_in p life).stores place.0 place.1) result }
    {
        let versions = self.left.tells_versions();
        self.stores
            .origin(self.config, &self.round.publisher, reader, versions)
    }
}
