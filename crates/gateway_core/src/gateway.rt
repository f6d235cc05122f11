//! A gateway over a link: what is collected, ticks and pumps.
ghost use Rattle.std.specs.Prelude.{◌≡◌, ◌<◌, ◌≤◌, ◌∷◌, ◌↔◌, [], IsTrue, IsSome, ℕ, List, Bool, count_by, length, slice_index_or};
ghost use Rattle.ua_base.specs.Journal.{Entry};
ghost use Rattle.ua_base.specs.Links.{KeepsLink};
ghost use Rattle.dataset_reader.specs.Reader.{IsReaderOf, kept_by};
ghost use Rattle.dataset_writer.specs.Standing.{IsWriter, logged_by};
ghost use Rattle.ps_config.specs.declared.parts.Config.{Config as ConfigValue};
ghost use Rattle.reader_group.specs.Members.{seat_at};
ghost use Rattle.reader_group.specs.Settings.{setting_of, group_at as read_group_at};
ghost use Rattle.writer_group.specs.Parts.{group_at};
ghost use Rattle.writer_group.specs.Payloads.{meta_at, writer_at};
ghost use Rattle.writer_group.specs.Turns.{settings_of};
ghost use Rattle.session_model.specs.Answers.{counted};
ghost use Rattle.session_model.specs.Closing.{is_datagram, is_got, is_send_failed, is_sent};
ghost use Rattle.session_model.specs.Counts.{most_taken};
ghost use Rattle.session_model.specs.Deeds.{log_at, writer_deeds};
ghost use Rattle.session_model.specs.Events.{reader_at};
ghost use Rattle.session_model.specs.Lives.{Lived, account_in, log_in};
ghost use Rattle.session_model.specs.Sends.{journal};
ghost use Rattle.session_model.specs.Steps.{Pump as SessionPump, Tick as SessionTick};
ghost use Rattle.session_parts.specs.Showing.{IsReaderIn};
ghost use Rattle.session_parts.specs.Ticking.{HaltsTickIn};
ghost use Rattle.gateway_core.specs.Lived.{Collect, GatewayStep, Pump, Tick, first_kept, plan_again, session_steps, version_in, versions_kept};
ghost use Rattle.gateway_core.specs.Holding.{CountsCollect, CountsPump, CountsTick, IsGateway, KeepsAll, KeepsCollected, MayPump, MayTake, MayTick, left_of, logged_of, sampled_by, sources_of};
ghost use Rattle.gateway_core.specs.Standing.{HaltsTick, Leads, Stands};
ghost use Rattle.gateway_core.specs.Living.{LeadsIn, StandsIn, writer_deeds_in};

use crate::collected::Collected;
use dataset_reader::Reader;
use dataset_writer::Writer;
use ps_config::Config;
use session_parts::{Round, Told};
use target_cells::Origin;
use ua_base::{Link, Pumped, Ticked};
use version_cell::Passes;

/// How long a gateway lasts, and what may still come.
#[derive(Clone, Copy, Debug)]
pub(crate) struct Left {
    /// The ticks that it was opened for, the closing one included.
    pub(crate) turns: u64,
    /// Those that are left.
    pub(crate) ticks: u64,
    /// What may still be collected.
    pub(crate) collects: u64,
    /// Pumps of ticks that came.
    pub(crate) pumps: u64,
    /// Whether the closing tick came.
    pub(crate) is_closed: bool,
}

/// A gateway of a second configuration. All its memory was taken when it was opened.
#[derive(Drop)]
pub struct Gateway<'c> {
    pub(crate) config: &'c Config,
    pub(crate) left: Left,
    pub(crate) collected: Collected,
    pub(crate) round: Round,
}

impl<'c> Gateway<'c> {
    /// The samples of the next tick are what the passes have seen of the sources' targets, each
    /// with its count of stores as version. The versions of the first stores are kept, as far as their
    /// origins tell them.
    pub fn collect(&mut self, passes: &Passes, origins: &[Origin])
        requires may { MayTake self.old passes.now origins.now }
        ensures gateway { IsGateway self.new }
        ensures left { CountsCollect (left_of self.old) (left_of self.new) }
        ensures sources { sources_of self.new ≡ sources_of self.old }
        ensures logged { logged_of self.new ≡ logged_of self.old }
        ensures stands { (second : ConfigValue) (lived : List GatewayStep)
            → Stands second lived self.old
            → Stands second (Collect passes.now origins.now ∷ lived) self.new }
        ensures lives { (second : ConfigValue) (lived : List GatewayStep) (life : List Lived)
            → StandsIn second lived life self.old
            → StandsIn second (Collect passes.now origins.now ∷ lived) life self.new }
    {
        self.left.collects -= 1;
        self.collected.take(passes, origins);
    }

    /// A tick with what was collected last, as a session's in which all components are enabled. Time goes on by so many
    /// milliseconds, an hour at most. Each sender turns to the moment, and a new token refreshes its groups' writers.
    /// Timers expire. Each group that is due (at the closing tick each one) and whose sender isn't spent has its turn,
    /// and its datagrams are sent once each, in order. Want of memory comes from a send of the link alone; what was
    /// done before it stands.
    pub fn tick<L: Link>(&mut self, ms: u64, closing: bool, link: &mut L) -> Ticked
        requires open { IsSome (L.opened_with link.old) }
        requires may { MayTick ms closing self.old }
        ensures gateway { IsGateway self.new }
        ensures left { CountsTick closing (left_of self.old) (left_of self.new) }
        ensures leads { result ≡ Ticked.Done → (second : ConfigValue) (lived : List GatewayStep)
            → Stands second lived self.old
            → (done : List Bool) × Leads second lived (Tick ms closing done)
            (L.told link.old) (L.told link.new) self.new }
        ensures halted { result ≡ Ticked.Memory → (second : ConfigValue) (lived : List GatewayStep)
            → Stands second lived self.old
            → HaltsTick second (sources_of self.old) lived ms closing
            (L.told link.old) (L.told link.new) }
        ensures lives { result ≡ Ticked.Done → (second : ConfigValue) (lived : List GatewayStep)
            (life : List Lived) → StandsIn second lived life self.old
            → (done : List Bool) × LeadsIn second lived life (Tick ms closing done)
            (SessionTick ms closing (sampled_by self.old) done)
            (L.told link.old) (L.told link.new) self.new }
        ensures halted_lives { result ≡ Ticked.Memory → (second : ConfigValue)
            (lived : List GatewayStep) (life : List Lived) → StandsIn second lived life self.old
            → HaltsTickIn (plan_again second) life ms closing (sampled_by self.old)
            (L.told link.old) (L.told link.new) }
        ensures collected { KeepsCollected self.old self.new }
        ensures memory { result ≡ Ticked.Memory → IsTrue L.takes_memory }
        ensures link { KeepsLink L.told L.patience L.opened_with L.faults L.made L.openings
            0 link.old link.new }
    {
        self.left.ticks -= 1;
        self.left.pumps += 1;
        self.left.is_closed = closing;
        let moment = self.round.moment + ms;
        let told = Told {
            config: self.config,
            metas: self.config.dataset.as_slice(),
            rows: &self.collected.samples,
            moment,
            closing,
        };
        self.round.tick(&told, link)
    }

    /// Receives what came, until nothing waits, a receive fails or 65,536 datagrams were taken;
    /// each goes to each read group in order. The answer is how many were taken, and whether the
    /// pump ended for that.
    pub fn pump<L: Link>(&mut self, link: &mut L) -> Pumped
        requires open { IsSome (L.opened_with link.old) }
        requires may { MayPump self.old }
        ensures gateway { IsGateway self.new }
        ensures left { CountsPump (left_of self.old) (left_of self.new) }
        ensures leads { (second : ConfigValue) (lived : List GatewayStep)
            → Stands second lived self.old
            → (entries : List Entry) × Leads second lived (Pump entries)
            (L.told link.old) (L.told link.new) self.new
            × (result.taken ≡ count_by is_datagram entries) }
        ensures lives { (second : ConfigValue) (lived : List GatewayStep) (life : List Lived)
            → StandsIn second lived life self.old
            → (entries : List Entry) × LeadsIn second lived life (Pump entries)
            (SessionPump entries) (L.told link.old) (L.told link.new) self.new
            × (result.taken ≡ count_by is_datagram entries) }
        ensures limit { IsTrue result.limit ↔ (result.taken ≡ most_taken) }
        ensures collected { KeepsCollected self.old self.new }
        ensures link { KeepsLink L.told L.patience L.opened_with L.faults L.made L.openings
            1 link.old link.new }
    {
        self.left.pumps -= 1;
        self.round.pump(self.config, link)
    }

    /// A writer, by its group and its index in this. Its log keeps the first data frames, and each one where the gateway was opened
    /// with room for as many as it has ticks.
    pub fn writer(&self, group: u8, index: u8) -> &Writer
        requires gateway { IsGateway self.now }
        requires group { group < length self.now.config.now.group }
        requires index { index < length (group_at self.now.config.now group).writer }
        ensures lived { (second : ConfigValue) (lived : List GatewayStep)
            → Stands second lived self.now
            → IsWriter (meta_at (group_at second group) second.dataset index)
            (settings_of (writer_at (group_at second group) index))
            (writer_deeds (plan_again second) group index
            (session_steps (sources_of self.now) lived)) result.now }
        ensures lives { (second : ConfigValue) (lived : List GatewayStep) (life : List Lived)
            → StandsIn second lived life self.now
            → IsWriter (meta_at (group_at second group) second.dataset index)
            (settings_of (writer_at (group_at second group) index))
            (writer_deeds_in second life group index) result.now }
        ensures logged { logged_by result.now ≡ logged_of self.now }
        ensures all { KeepsAll self.now → (second : ConfigValue) (lived : List GatewayStep)
            → Stands second lived self.now → length (log_at (plan_again second) group index
            (session_steps (sources_of self.now) lived)) ≤ logged_of self.now }
        ensures all_lives { KeepsAll self.now → (second : ConfigValue) (lived : List GatewayStep)
            (life : List Lived) → StandsIn second lived life self.now
            → length (log_in (plan_again second) life group index) ≤ logged_of self.now }
    {
        self.round.publisher.groups[usize::from(group)].writer(index)
    }

    /// A reader, by its read group and its index in this.
    pub fn reader(&self, group: u8, index: u8) -> &Reader
        requires gateway { IsGateway self.now }
        requires group { group < length self.now.config.now.readgroup }
        requires index { index < length (read_group_at self.now.config.now group).reader }
        ensures kept { (second : ConfigValue) (lived : List GatewayStep)
            → Stands second lived self.now
            → kept_by (seat_at (setting_of second group).seats index).meta.fields result.now
            ≡ (reader_at second group index (session_steps (sources_of self.now) lived)).kept }
        ensures lives { (second : ConfigValue) (lived : List GatewayStep) (life : List Lived)
            → StandsIn second lived life self.now → IsReaderIn (plan_again second)
            (account_in (plan_again second) life).readings (group, index) result.now }
        ensures made { IsReaderOf
            (seat_at (setting_of self.now.config.now group).seats index).meta result.now }
    {
        self.round.subscriber.groups[usize::from(group)].reader(index)
    }

    /// How many sends were done, how many failed, and how many datagrams came. A count stops at
    /// 2^64 - 1.
    pub fn counts(&self) -> [u64; 3]
        ensures counts { (second : ConfigValue) (lived : List GatewayStep)
            → Stands second lived self.now
            → let told = journal (plan_again second) (session_steps (sources_of self.now) lived) in
            result ≡ counted (count_by is_sent told) ∷ counted (count_by is_send_failed told)
            ∷ counted (count_by is_got told) ∷ [] }
        ensures lives { (second : ConfigValue) (lived : List GatewayStep) (life : List Lived)
            → StandsIn second lived life self.now
            → let told = (account_in (plan_again second) life).journal in
            result ≡ counted (count_by is_sent told) ∷ counted (count_by is_send_failed told)
            ∷ counted (count_by is_got told) ∷ [] }
    {
        [
            self.round.publisher.link.done,
            self.round.publisher.link.failed,
            self.round.receiving.received,
        ]
    }

    /// The version that a store of a data set's source came with, that of store 0 being 0: none
    /// exactly where no such store was collected, its version isn't known, or it isn't one of the first
    /// that are kept.
    pub fn version_of(&self, set: u8, store: u64) -> Option<u64>
        requires gateway { IsGateway self.now }
        requires set { set < length self.now.config.now.dataset }
        ensures first { (second : ConfigValue) (lived : List GatewayStep)
            → Stands second lived self.now
            → let source = slice_index_or (sources_of self.now) set 0 in
            result ≡ version_in
            (first_kept (logged_of self.now) (versions_kept source lived)) store }
        ensures lives { (second : ConfigValue) (lived : List GatewayStep) (life : List Lived)
            → StandsIn second lived life self.now
            → let source = slice_index_or (sources_of self.now) set 0 in
            result ≡ version_in
            (first_kept (logged_of self.now) (versions_kept source lived)) store }
        ensures all { KeepsAll self.now → (second : ConfigValue) (lived : List GatewayStep)
            → Stands second lived self.now
            → let source = slice_index_or (sources_of self.now) set 0 in
            result ≡ version_in (versions_kept source lived) store }
        ensures all_lives { KeepsAll self.now → (second : ConfigValue) (lived : List GatewayStep)
            (life : List Lived) → StandsIn second lived life self.now
            → let source = slice_index_or (sources_of self.now) set 0 in
            result ≡ version_in (versions_kept source lived) store }
    {
        self.collected.versions[usize::from(set)].version_of(store)
    }
}
