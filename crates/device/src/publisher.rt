//! Publishers.
ghost use Rattle.std.specs.Prelude.{◌≡◌, ◌↔◌, ◌<◌, ◌≤◌, ◌+◌, ◌⊎◌, ◌||◌, [], IsTrue, IfOk, IfErr, IfSome, IfNone, Ok, Some, length, slice_index_or};
ghost use Rattle.std.specs.Bool.{OnTrue, OnFalse};
ghost use Rattle.std.specs.List.{AllZip};
ghost use Rattle.group_keys.specs.Ring.{is_long, key_sets};
ghost use Rattle.ps_config.specs.Reading.{configuration, IsEnd};
ghost use Rattle.ps_config.specs.Types.{HasTypes};
ghost use Rattle.row_words.specs.Setting.{HasStatus, HasValue};
ghost use Rattle.row_words.specs.Words.{scalar_in};
ghost use Rattle.writer_group.specs.Standing.{IsGood, datagrams_in};
ghost use Rattle.device.specs.Coming.{Comes, HasCome, IsWaiting};
ghost use Rattle.device.specs.Due.{IsCalm, IsDue, IsSpentAt, TellsFirst};
ghost use Rattle.device.specs.Looking.{Counts, HasLooked, IsFrom};
ghost use Rattle.device.specs.Resuming.{IsBehind, IsBehindConfigured, IsEarlier, MayNotResume, MayNotResumeConfigured};
ghost use Rattle.device.specs.Sides.{AreOpeningSides, FitsKeyGroup, HasField, HasLongKeys, HasNoField, HasNoScalar, HasNoWriter, HasRenewed, HasSet, HasSetStatus, HasSetWord, HasWriterSwitched, IsMisfit, IsNoLower, IsOpeningRow, IsOpeningSender, IsPublisher, IsRowAt, IsStatusMisfit, IsWordMisfit, RowIs, StandsAt};
ghost use Rattle.device.specs.Storing.{none_stored};

use crate::asked::Next;
use crate::due::{earlier, groups_due, keys_due};
use crate::looking::{Looked, is_held, look};
use crate::making::{copy_of, has_long_keys, rings_of, rows_of, sender_with, senders_of, sides_of};
use crate::rows::{field_in, set_in, set_status_in, set_word_in, word_in};
use crate::side::Side;
use crate::sides::{refresh_with, turn_senders};
use crate::store::Store;
use crate::words::has_field_at;
use group_keys::Ring;
use message_guard::Sender;
use ps_config::{Config, ConfigEnd, read_config, ring_of};
use row_words::Row;
use std::alloc::Global;
use ua_base::NoMemory;
use ua_values::{Kind, Value};
use writer_group::{Datagrams, Sampled};

/// The groups of a configuration (OPC 10000-14 6.2.6, WriterGroup) with a row of each of its data sets. All writers are on at first.
#[derive(Drop)]
pub struct Publisher {
    pub config: Config,
    /// A row of each data set, with how often it was set.
    pub rows: Vec<Sampled>,
    /// A sender of each key group.
    pub senders: Vec<Sender>,
    /// The ring of each of them once more, which tells when its next token comes.
    pub rings: Vec<Ring>,
    pub sides: Vec<Side>,
    /// The datagrams of the last turn, of whichever group.
    pub out: Datagrams,
    /// The index of that group.
    pub from: u8,
    /// How many there are, and how many of them were handed over.
    pub made: u32,
    pub handed: u32,
    /// What of the numbers is in store.
    pub store: Store,
}

impl Publisher {
    /// The publisher of the configuration that the text is, with opening rows. It takes all memory that it ever needs.
    pub fn open(alloc: Global, text: &[u8]) -> Result<Publisher, ConfigEnd>
        ensures publisher { IfOk result IsPublisher }
        ensures ok { IfOk result (λ publisher. configuration text.now ≡ Ok publisher.config) }
        ensures types { IfOk result (λ publisher. HasTypes publisher.config) }
        ensures rows { IfOk result (λ publisher.
            AllZip IsOpeningRow publisher.config.dataset publisher.rows.items) }
        ensures senders { IfOk result (λ publisher.
            AllZip IsOpeningSender publisher.config.keygroup publisher.senders.items) }
        ensures sides { IfOk result (λ publisher.
            AreOpeningSides publisher.config publisher.sides.items) }
        ensures none_waits { IfOk result (λ publisher. publisher.made ≡ 0) }
        ensures store { IfOk result (λ publisher. publisher.store ≡ none_stored) }
        ensures refused { IfErr result (IsEnd (configuration text.now)) }
    {
        let config = read_config(alloc, text)?;
        match publisher_of(alloc, config) {
            Ok(publisher) => Ok(publisher),
            Err(NoMemory) => Err(ConfigEnd::Memory),
        }
    }

    /// Sets the value and the status of a field, by the indexes of its data set and of the field in it, where the field is there and
    /// may have them. False, and nothing is set, where it isn't.
    pub fn set(&mut self, set: u8, field: u8, value: &Value, status: u32) -> bool
        requires { IsPublisher self.old }
        ensures publisher { IsPublisher self.new }
        ensures set { OnTrue result (HasSet set field value.now status self.old self.new) }
        ensures unset { OnFalse result (self.new.rows.items ≡ self.old.rows.items) }
        ensures misfit { OnFalse result
            (IsMisfit self.old.config.dataset set field value.now status) }
        ensures rest { self.new ≡ record self.old { rows = self.new.rows } }
    {
        let metas = self.config.dataset.as_slice();
        set_in(metas, &mut self.rows, set, field, value, status)
    }

    /// Sets a field of this kind, which is a scalar's, to the value with this word (`Row::set_word`). False, and nothing is set, where
    /// there is no such field, or no such value.
    pub fn set_word(&mut self, set: u8, field: u8, kind: Kind, word: u64) -> bool
        requires { IsPublisher self.old }
        ensures publisher { IsPublisher self.new }
        ensures set { OnTrue result (HasSetWord set field kind word self.old self.new) }
        ensures unset { OnFalse result (self.new.rows.items ≡ self.old.rows.items) }
        ensures misfit { OnFalse result
            (IsWordMisfit self.old.config.dataset set field kind word) }
        ensures rest { self.new ≡ record self.old { rows = self.new.rows } }
    {
        let metas = self.config.dataset.as_slice();
        set_word_in(metas, &mut self.rows, set, field, kind, word)
    }

    /// Sets the status of a field, and leaves its value. False, and nothing is set, where there is no such field, or where its data
    /// set has no quality and the status isn't Good.
    pub fn set_status(&mut self, set: u8, field: u8, status: u32) -> bool
        requires { IsPublisher self.old }
        ensures publisher { IsPublisher self.new }
        ensures set { OnTrue result (HasSetStatus set field status self.old self.new) }
        ensures unset { OnFalse result (self.new.rows.items ≡ self.old.rows.items) }
        ensures misfit { OnFalse result (IsStatusMisfit self.old.config.dataset set field status) }
        ensures rest { self.new ≡ record self.old { rows = self.new.rows } }
    {
        let metas = self.config.dataset.as_slice();
        set_status_in(metas, &mut self.rows, set, field, status)
    }

    /// Whether there is a data set with this index, and a field with this index in it.
    pub fn has_field(&self, set: u8, field: u8) -> bool
        ensures there { OnTrue result (HasField self.now.config.dataset set field) }
        ensures not { OnFalse result (HasNoField self.now.config.dataset set field) }
    {
        let metas = self.config.dataset.as_slice();
        let index = usize::from(set);
        if index >= metas.len() {
            return false;
        }
        has_field_at(&metas[index], field)
    }

    /// The publisher's own row of the data set with this index.
    pub fn row(&self, set: u8) -> Option<&Row>
        ensures row { IfSome result (λ row. IsRowAt set self.now row.now) }
        ensures none { IfNone result (length self.now.rows.items ≤ set) }
    {
        let index = usize::from(set);
        if index >= self.rows.len() {
            return None;
        }
        Some(&self.rows[index].row)
    }

    /// The value and the status of a field of the publisher's own row, by the indexes of its data set and of the field in it. None
    /// where there is no such field.
    pub fn field(&self, set: u8, field: u8) -> Option<(Value, u32)>
        requires { IsPublisher self.now }
        ensures value { IfSome result (λ x. RowIs set (λ row. HasValue row field x.0)
            self.now.config.dataset self.now.rows.items) }
        ensures status { IfSome result (λ x. RowIs set (λ row. HasStatus row field x.1)
            self.now.config.dataset self.now.rows.items) }
        ensures none { IfNone result (HasNoField self.now.config.dataset set field) }
    {
        let metas = self.config.dataset.as_slice();
        field_in(metas, &self.rows, set, field)
    }

    /// The word of a field of this kind, which is a scalar's, of the publisher's own row (`Row::word`). None where there is no such
    /// field, or where it isn't of that kind.
    pub fn word(&self, set: u8, field: u8, kind: Kind) -> Option<u64>
        requires { IsPublisher self.now }
        ensures word { IfSome result (λ word. RowIs set (λ row. HasValue row field
            (scalar_in kind word)) self.now.config.dataset self.now.rows.items) }
        ensures none { IfNone result (HasNoScalar self.now.config.dataset set field kind) }
    {
        let metas = self.config.dataset.as_slice();
        word_in(metas, &self.rows, set, field, kind)
    }

    /// The first moment from `now` on, in milliseconds, at which the publisher has something to do: at once where a datagram waits;
    /// else as soon as a group is due that may have its turn, or a key group's next key set begins. So a program may sleep until
    /// then, unless it makes another call before. None where nothing will ever be due.
    pub fn due(&self, now: u64) -> Option<u64>
        requires { IsPublisher self.now }
        ensures waits { self.now.handed < self.now.made → result ≡ Some now }
        ensures first { self.now.made ≤ self.now.handed
            → TellsFirst now (IsCalm self.now) (IsDue self.now) result }
    {
        if self.is_waiting() {
            return Some(now);
        }
        let groups = groups_due(&self.config, &self.sides, now, &self.rows, &self.senders);
        let keys = keys_due(&self.rings, &self.senders, now);
        earlier(groups, keys)
    }

    /// Whether the group with this index can have no turn: the token in use of its key group has fewer than 1,024 numbers left, or all
    /// turns of its life are over. None where there is no such group.
    pub fn is_spent(&self, group: u8) -> Option<bool>
        requires { IsPublisher self.now }
        ensures spent { IfSome result (IsSpentAt group self.now) }
        ensures none { IfNone result (length self.now.sides.items ≤ group) }
    {
        let index = usize::from(group);
        if index >= self.sides.len() {
            return None;
        }
        Some(!self.sides[index].may_turn(&self.config, &self.rows, &self.senders))
    }

    /// What the publisher has at `now`, in milliseconds, which must not fall. Where no datagram waits, the senders turn to `now`, and
    /// where a token changes the groups that are secured with its keys send key frames next. Then groups that are due have their turns,
    /// in order, until one makes a datagram. A group's turn counts as that of the last multiple of its interval, so that it doesn't
    /// drift.
    pub fn come_to(&mut self, now: u64) -> Next
        requires { IsPublisher self.old }
        ensures publisher { IsPublisher self.new }
        ensures waits { result ≡ Next.Datagram → self.new.handed < self.new.made }
        ensures waited { self.old.handed < self.old.made → IsWaiting result self.old self.new }
        ensures came { self.old.made ≤ self.old.handed → HasCome now result self.old self.new }
        ensures store { self.new.store ≡ self.old.store }
    {
        if self.is_waiting() {
            return Next::Datagram;
        }
        turn_senders(&self.config, &mut self.sides, &mut self.senders, now);
        self.turn_due(now)
    }

    /// Whether a datagram waits.
    fn is_waiting(&self) -> bool
        ensures there { OnTrue result (self.now.handed < self.now.made) }
        ensures not { OnFalse result (self.now.made ≤ self.now.handed) }
    {
        self.handed < self.made
    }

    /// The datagram that waits.
    pub fn datagram(&self) -> &[u8]
        requires publisher { IsPublisher self.now }
        requires waits { self.now.handed < self.now.made }
        ensures { result.now ≡ slice_index_or (datagrams_in self.now.out) self.now.handed [] }
    {
        self.out.get(self.handed)
    }

    /// The index of the group whose datagram waits. None where none waits.
    pub fn waiting_group(&self) -> Option<u8>
        ensures group { IfSome result (λ group. group ≡ self.now.from) }
        ensures waits { IfSome result (λ group. self.now.handed < self.now.made) }
        ensures none { IfNone result (self.now.made ≤ self.now.handed) }
    {
        if !self.is_waiting() {
            return None;
        }
        Some(self.from)
    }

    /// The datagram that waits was sent, or dropped: the one behind it waits.
    pub fn hand_over(&mut self)
        requires publisher { IsPublisher self.old }
        requires waits { self.old.handed < self.old.made }
        ensures publisher { IsPublisher self.new }
        ensures handed { self.new ≡ record self.old { handed = self.old.handed + 1 } }
    {
        self.handed += 1;
    }

    /// Switches the writer with this index in the group with this index on or off. The next frame of one that is switched on is a key
    /// frame. False, and nothing changes, where there is no such writer.
    pub fn switch(&mut self, group: u8, writer: u8, on: bool) -> bool
        requires { IsPublisher self.old }
        ensures publisher { IsPublisher self.new }
        ensures switched { OnTrue result (HasWriterSwitched group writer on self.old self.new) }
        ensures not { OnFalse result (self.new ≡ self.old) }
        ensures absent { OnFalse result (HasNoWriter group writer self.old) }
    {
        let index = usize::from(group);
        if index >= self.sides.len() {
            return false;
        }
        if !self.sides[index].has_writer(&self.config, writer) {
            return false;
        }
        self.sides[index].switch(&self.config, writer, on);
        true
    }

    /// The token in use of the key group with this index, and the last number used under it (`Sender::standing`).
    pub fn standing(&self, keygroup: u8) -> Option<(u32, u32)>
        ensures stands { IfSome result (StandsAt keygroup self.now) }
        ensures none { IfNone result (length self.now.senders.items ≤ keygroup) }
    {
        let index = usize::from(keygroup);
        if index >= self.senders.len() {
            return None;
        }
        Some(self.senders[index].standing())
    }

    /// The key group with this index goes on with another ring (`Sender::renew`), whose keys have to be as long as the key group's:
    /// `has_long_keys` tells how long these are. The token in use stays until `come_to` finds a higher one, and key frames follow then.
    /// The answer is true also where no token of the ring is higher: then the token in use stays, with its keys. False, and nothing
    /// changes, where there is no such key group.
    pub fn renew(&mut self, keygroup: u8, ring: Ring) -> bool
        requires publisher { IsPublisher self.old }
        requires long { FitsKeyGroup self.old.config keygroup (is_long ring) }
        ensures publisher { IsPublisher self.new }
        ensures renewed { OnTrue result (HasRenewed keygroup (key_sets ring) self.old self.new) }
        ensures not { OnFalse result (self.new ≡ self.old) }
        ensures absent { OnFalse result (length self.old.senders.items ≤ keygroup) }
    {
        let index = usize::from(keygroup);
        if index >= self.senders.len() {
            return false;
        }
        self.rings[index] = copy_of(&ring);
        self.senders[index].renew(ring);
        true
    }

    /// Whether the key group with this index has keys of AES-256. None where there is no such key group.
    pub fn has_long_keys(&self, keygroup: u8) -> Option<bool>
        ensures long { IfSome result (HasLongKeys self.now.config keygroup) }
        ensures none { IfNone result (length self.now.config.keygroup ≤ keygroup) }
    {
        has_long_keys(&self.config, keygroup)
    }

    /// The key group with this index goes on behind `used` numbers of the configuration's last key set whose moment has come at `now`,
    /// in milliseconds (`Sender::resume`). Where that key set's token is later than the one in use, the groups that are secured with its
    /// keys send key frames next; under the same token they go on as they were. False, and nothing changes, where there is no such key
    /// group, or where a number would come twice: the token is lower than the one in use, or is that one with a greater number used.
    pub fn resume(&mut self, keygroup: u8, now: u64, used: u32) -> bool
        requires { IsPublisher self.old }
        ensures publisher { IsPublisher self.new }
        ensures behind { OnTrue result (IsBehindConfigured keygroup now used self.old self.new) }
        ensures not { OnFalse result (self.new ≡ self.old) }
        ensures refused { OnFalse result (MayNotResumeConfigured keygroup now used self.old) }
    {
        let index = usize::from(keygroup);
        let keygroups = self.config.keygroup.as_slice();
        if index >= keygroups.len() {
            return false;
        }
        let ring = ring_of(&keygroups[index]);
        self.go_on(keygroup, now, used, ring)
    }

    /// The same with the key sets of this ring, as `renew` gave them before a restart and with keys as long as it asks for: behind the
    /// token and the number that `standing` told last. False also where the last key set whose moment has come is of an earlier token:
    /// the numbers that were used under it aren't known. Under a later token so many numbers are passed over. Key frames follow where
    /// the token in use changes, as `resume` has it.
    pub fn resume_with(&mut self, keygroup: u8, now: u64, token: u32, used: u32, ring: Ring) -> bool
        requires publisher { IsPublisher self.old }
        requires long { FitsKeyGroup self.old.config keygroup (is_long ring) }
        ensures publisher { IsPublisher self.new }
        ensures behind { OnTrue result
            (IsBehind keygroup now used (key_sets ring) self.old self.new) }
        ensures no_earlier { OnTrue result (¬ IsEarlier now token (key_sets ring)) }
        ensures not { OnFalse result (self.new ≡ self.old) }
        ensures refused { OnFalse result
            (IsEarlier now token (key_sets ring)
            ⊎ MayNotResume keygroup now used (key_sets ring) self.old) }
    {
        if ring.at(now).token < token {
            return false;
        }
        self.go_on(keygroup, now, used, ring)
    }

    /// The sender of the key group goes on behind `used` numbers of this ring, unless a number would come twice. Where its token changes
    /// its groups send key frames next.
    pub(crate) fn go_on(&mut self, keygroup: u8, now: u64, used: u32, ring: Ring) -> bool
        requires { IsPublisher self.old }
        ensures publisher { IsPublisher self.new }
        ensures behind { OnTrue result
            (IsBehind keygroup now used (key_sets ring) self.old self.new) }
        ensures not { OnFalse result (self.new ≡ self.old) }
        ensures refused { OnFalse result (MayNotResume keygroup now used (key_sets ring) self.old) }
    {
        let index = usize::from(keygroup);
        let keygroups = self.config.keygroup.as_slice();
        if index >= self.senders.len() {
            return false;
        }
        if index >= keygroups.len() {
            return false;
        }
        let copy = copy_of(&ring);
        let sender = sender_with(&keygroups[index], ring, now, used);
        let (new, old) = (sender.standing(), self.senders[index].standing());
        if !is_behind(new, old) {
            return false;
        }
        self.senders[index] = sender;
        self.rings[index] = copy;
        refresh_with(&self.config, &mut self.sides, keygroup, new.0 != old.0);
        true
    }

    /// The turns of the groups that are due, until one makes a datagram.
    fn turn_due(&mut self, now: u64) -> Next
        requires publisher { IsPublisher self.old }
        requires none_waits { self.old.made ≤ self.old.handed }
        ensures publisher { IsPublisher self.new }
        ensures waits { result ≡ Next.Datagram → self.new.handed < self.new.made }
        ensures config { self.new.config ≡ self.old.config }
        ensures rows { self.new.rows.items ≡ self.old.rows.items }
        ensures came { Comes now result self.old.senders.items self.old.sides.items self.new }
        ensures store { self.new.store ≡ self.old.store }
    {
        let mut held = false;
        for g in 0..self.sides.len() {
            let looked = self.look_at(g, now);
            if self.is_waiting() {
                return Next::Datagram;
            }
            held = either(held, is_held(looked));
        }
        if held { Next::Spent } else { Next::Nothing }
    }

    /// The turn of the group at this index, if it is due and may have one.
    fn look_at(&mut self, index: usize, now: u64) -> Looked
        requires publisher { IsPublisher self.old }
        requires index { index < length self.old.sides.items }
        ensures publisher { IsPublisher self.new }
        ensures looked { HasLooked index now result self.old self.new }
        ensures store { self.new.store ≡ self.old.store }
    {
        let from = self.sides[index].index;
        let looked = look(
            &self.config,
            &mut self.sides[index],
            now,
            &self.rows,
            &mut self.senders,
            &mut self.out,
        );
        self.count(from, looked);
        looked
    }

    /// Counts the datagrams of a turn of the group with this index, of which none was handed over.
    fn count(&mut self, from: u8, looked: Looked)
        ensures counts { Counts looked self.old self.new }
        ensures from { IsFrom looked from self.new }
        ensures rest { self.new ≡ record self.old {
          from = self.new.from;
          made = self.new.made;
          handed = self.new.handed;
        } }
    {
        match looked {
            Looked::Idle => {}
            Looked::Held => {}
            Looked::Made(made) => {
                self.from = from;
                self.made = made;
                self.handed = 0;
            }
        }
    }
}

fn either(one: bool, other: bool) -> bool
    ensures { result ≡ (one || other) }
{
    one || other
}

/// The publisher of a configuration, with opening rows.
fn publisher_of(alloc: Global, config: Config) -> Result<Publisher, NoMemory>
    requires { IsGood config }
    ensures publisher { IfOk result IsPublisher }
    ensures config { IfOk result (λ publisher. publisher.config ≡ config) }
    ensures rows { IfOk result (λ publisher.
        AllZip IsOpeningRow config.dataset publisher.rows.items) }
    ensures senders { IfOk result (λ publisher.
        AllZip IsOpeningSender config.keygroup publisher.senders.items) }
    ensures sides { IfOk result (λ publisher. AreOpeningSides config publisher.sides.items) }
    ensures none_waits { IfOk result (λ publisher. publisher.made ≡ 0) }
    ensures store { IfOk result (λ publisher. publisher.store ≡ none_stored) }
{
    let rows = rows_of(alloc, config.dataset.as_slice())?;
    let senders = senders_of(alloc, config.keygroup.as_slice())?;
    let rings = rings_of(alloc, config.keygroup.as_slice())?;
    let sides = sides_of(alloc, &config)?;
    let out = Datagrams::for_config(alloc, &config)?;
    Ok(Publisher {
        config,
        rows,
        senders,
        rings,
        sides,
        out,
        from: 0,
        made: 0,
        handed: 0,
        store: Store::new(),
    })
}

/// Whether no number of the second standing comes again behind the first one, each a token and the number used last under it.
pub(crate) fn is_behind(new: (u32, u32), old: (u32, u32)) -> bool
    ensures { IsTrue result ↔ IsNoLower old new }
{
    let (token, used) = new;
    let (old_token, old_used) = old;
    old_token < token || (old_token == token && old_used <= used)
}
