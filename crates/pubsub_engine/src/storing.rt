//! The stores of what readers hold.
ghost use Rattle.std.specs.Prelude.{◌≡◌, ◌≢◌, ◌<◌, ◌+◌, ◌∷◌, [], ℕ, List, false, IfOk, length, slice_get, slice_index_or, Some};
ghost use Rattle.dataset_meta.specs.Metas.{MetaData};
ghost use Rattle.ps_config.specs.Sound.{readers};
ghost use Rattle.session_model.specs.Readings.{Reading};
ghost use Rattle.dataset_reader.specs.Reader.{IsReaderOf, kept_by};
ghost use Rattle.version_cell.specs.Sets.{ArePassesOf, cell_at, pass_at};
ghost use Rattle.writer_group.specs.Standing.{IsGood};
ghost use Rattle.row_words.specs.Belonging.{Belongs, row_in};
ghost use Rattle.session_model.specs.Steps.{Plan};
ghost use Rattle.session_model.specs.Deeds.{Deed};
ghost use Rattle.session_model.specs.Closing.{MemberPlace, reader_places};
ghost use Rattle.session_model.specs.Stores.{Store, is_same, stored_on};
ghost use Rattle.pubsub_engine.specs.Holding.{AddsOneAtMost, HoldStores};
ghost use Rattle.pubsub_engine.specs.Logs.{log_after, logs_told};
ghost use Rattle.pubsub_engine.specs.Standing.{IsOriginFrom};
ghost use Rattle.session_parts.specs.Holding.{AreAllLogged, AreGroups, HoldSubscriber};
ghost use Rattle.session_parts.specs.Standing.{HavePast, HaveReadings};
ghost use Rattle.pubsub_engine.specs.Storing.{HaveStored, HaveStoredOn, IsLast, IsSameAt, IsStoredAs, MayStore, MayStoreFrom, first_reader, held_in, stored_at};

use crate::logs::{log_read, version_at};
use dataset_reader::Reader;
use ps_config::{Config, NumberingWord, ReaderPart};
use row_words::Row;
use session_parts::{Publisher, Subscriber, read_group_part};
use std::alloc::Global;
use std::sync::Wait;
use target_cells::{Keeper, Origin, Targets};
use ua_base::NoMemory;

/// The last store of a reader, if there is one; its row is that of the keeper's pass.
#[derive(Clone, Copy, Debug)]
struct Last {
    is_there: bool,
    number: Option<u16>,
}

/// The keeper of all readers' targets, and each reader's last store.
#[derive(Drop)]
pub(crate) struct Stores {
    pub(crate) keeper: Keeper,
    last: Vec<Last>,
}

impl Stores {
    /// Before the first store.
    pub(crate) fn new(alloc: Global, keeper: Keeper, readers: usize) -> Result<Stores, NoMemory>
        ensures keeper { IfOk result (λ stores. stores.keeper ≡ keeper) }
        ensures none { IfOk result (λ stores. (k : ℕ) → k < readers
            → (d : Last) → (slice_index_or stores.last.items k d).is_there ≡ false) }
        ensures count { IfOk result (λ stores. length stores.last.items ≡ readers) }
    {
        let none = Last {
            is_there: false,
            number: None,
        };
        Ok(Stores {
            keeper,
            last: vec![in alloc; none; readers]?,
        })
    }

    /// Each reader whose row isn't its last store is stored once.
    pub(crate) fn store_all<R: Wait>(
        &mut self,
        rt: &R,
        config: &Config,
        subscriber: &Subscriber,
        targets: &Targets,
    )
        requires good { IsGood config.now }
        requires holds { HoldSubscriber config.now subscriber.now }
        requires may { MayStore config.now targets.now self.old }
        ensures own { ArePassesOf targets.now.cells self.new.keeper }
        ensures left { (limit left : ℕ) → HoldStores config.now limit (left + 1) self.old
            → HoldStores config.now limit left self.new }
        ensures adds { (reader : ℕ) → reader < length self.old.keeper
            → AddsOneAtMost (pass_at self.old.keeper reader) (pass_at self.new.keeper reader) }
        ensures stored { (readings : ℕ → Reading) (list : MemberPlace → List Store)
            → HaveReadings config.now readings subscriber.now.groups.items
            → HaveStored config.now list self.old
            → HaveStored config.now (stored_at config.now readings list) self.new }
    {
        let mut first = 0;
        for r in 0..subscriber.groups.len() {
            self.store_group(rt, config, subscriber, targets, r, first);
            first += read_group_part(config, r).reader.as_slice().len();
        }
    }

    /// Where the last store of the reader with this index over all read groups comes from, with its version or without.
    pub(crate) fn origin(
        &self,
        config: &Config,
        publisher: &Publisher,
        reader: u8,
        versions: bool,
    ) -> Origin
        requires good { IsGood config.now }
        requires groups { AreGroups config.now publisher.now.groups.items }
        requires there { reader < length (readers config.now) }
        requires count { length self.now.last.items ≡ length (readers config.now) }
        requires keepers { length self.now.keeper ≡ length (readers config.now) }
        ensures { (most : ℕ) (p : Plan) (metas : List MetaData) (deeds : List Deed)
            (list : MemberPlace → List Store) (place : MemberPlace)
            → p.config ≡ config.now → AreAllLogged most publisher.now.groups.items
            → HavePast p.config metas deeds publisher.now.groups.items
            → HaveStored p.config list self.now
            → slice_get (reader_places p.config) reader ≡ Some place
            → let logs = logs_told versions (log_after most p.config deeds) in
            IsOriginFrom logs p place (list place) result }
    {
        let last = &self.last[usize::from(reader)];
        if !last.is_there {
            return Origin {
                store: 0,
                number: None,
                version: Some(0),
            };
        }
        let log = log_read(config, publisher, usize::from(reader), versions);
        Origin {
            store: self.keeper.pass(reader).version(),
            number: last.number,
            version: version_at(log, last.number),
        }
    }

    /// Stores what each reader of a read group holds, if it isn't its last store. So many readers are in the read groups before.
    fn store_group<R: Wait>(
        &mut self,
        rt: &R,
        config: &Config,
        subscriber: &Subscriber,
        targets: &Targets,
        r: usize,
        first: usize,
    )
        requires good { IsGood config.now }
        requires holds { HoldSubscriber config.now subscriber.now }
        requires there { r < length config.now.readgroup }
        requires first { first ≡ first_reader config.now r }
        requires may { MayStoreFrom config.now targets.now first self.old }
        ensures may { MayStoreFrom config.now targets.now
            (first_reader config.now (r + 1)) self.new }
        ensures stored { HaveStoredOn config.now subscriber.now.groups.items
            first (first_reader config.now (r + 1)) self.old self.new }
    {
        let parts = read_group_part(config, r).reader.as_slice();
        for i in 0..parts.len() {
            let reader = subscriber.groups[r].reader(i as u8);
            self.store(rt, first + i, &parts[i], reader, targets);
        }
    }

    /// Stores what the reader with this index over all read groups holds, if it isn't its last store.
    fn store<R: Wait>(
        &mut self,
        rt: &R,
        k: usize,
        part: &ReaderPart,
        reader: &Reader,
        targets: &Targets,
    )
        requires own { ArePassesOf targets.now.cells self.old.keeper }
        requires there { k < length targets.now.cells }
        requires count { length self.old.last.items ≡ length targets.now.cells }
        requires small { k < 256 }
        requires room { length (pass_at self.old.keeper k).seen < targets.now.limit }
        requires reader { IsReaderOf (cell_at targets.now.cells k).meta reader.now }
        ensures own { ArePassesOf targets.now.cells self.new.keeper }
        ensures count { length self.new.last.items ≡ length self.old.last.items }
        ensures adds { AddsOneAtMost (pass_at self.old.keeper k) (pass_at self.new.keeper k) }
        ensures others { (other : ℕ) → other ≢ k → IsSameAt self.old self.new other }
        ensures stored { (stores : List Store) → let meta = (cell_at targets.now.cells k).meta in
            let held = held_in (kept_by meta.fields reader.now) in
            IsStoredAs meta stores self.old k
            → IsStoredAs meta (stored_on part.now.numbering stores held) self.new k }
    {
        let Some(row) = reader.row() else {
            return;
        };
        let number = reader.number();
        let kept = self.keeper.pass(k as u8).row();
        if self.last[k].is_same(part.numbering, number, kept, row) {
            return;
        }
        targets.store(rt, &mut self.keeper, k as u8, row);
        self.last[k] = Last {
            is_there: true,
            number,
        };
    }
}

impl Last {
    /// Whether it is of this number, or without numbering of this row. The keeper's pass has the row that it left.
    fn is_same(&self, numbering: NumberingWord, number: Option<u16>, kept: &Row, row: &Row) -> bool
        ensures none { (meta : MetaData) → IsLast [] meta kept.now.words self.now → result ≡ false }
        ensures some { (meta : MetaData) (last : Store) (before : List Store)
            → IsLast (last ∷ before) meta kept.now.words self.now → Belongs meta row.now.words
            → let words = row.now.words in
            result ≡ is_same numbering last
            (record { number = number; row = row_in meta.fields words }) }
    {
        self.is_there
            && match numbering {
                NumberingWord::Message => self.number == number,
                NumberingWord::None => *kept == *row,
            }
    }
}
