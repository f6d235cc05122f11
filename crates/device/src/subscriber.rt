//! Subscribers.
ghost use Rattle.std.specs.Prelude.{◌≡◌, ◌<◌, ◌≤◌, All, Ok, Some, IfOk, IfErr, IfSome, IfNone, length, map};
ghost use Rattle.std.specs.Bool.{OnFalse, OnTrue};
ghost use Rattle.std.specs.List.{Any};
ghost use Rattle.group_keys.specs.Ring.{is_long, key_sets};
ghost use Rattle.message_guard.specs.Protection.{keys_in};
ghost use Rattle.reader_group.specs.Groups as reads;
ghost use Rattle.ps_config.specs.Reading.{configuration, IsEnd};
ghost use Rattle.ps_config.specs.Sound.{IsSound};
ghost use Rattle.uadp_header.specs.Reading.{GivesHeader};
ghost use Rattle.writer_group.specs.Standing.{IsGood};
ghost use Rattle.row_words.specs.Words.{scalar_in};
ghost use Rattle.device.specs.Due.{AreInTime, HasTimeout, TellsFirst};
ghost use Rattle.device.specs.Readings.{HasAge, HasFieldStatus, HasFieldValue, HasKeysRenewed, HasLastTaken, HasNoMisfit, HasNumber, HasReaderSwitched, HasRefused, HaveExpired, IsConfirmedFor, IsFreshFor, IsNoReader, IsNoticeFor, IsOfKind, IsOfOtherKind, IsReaderAt, IsStale, IsUnconfirmed, IsUntold, IsUntoldAt, Keeps, ReaderKeeps, meta_for};
ghost use Rattle.device.specs.Sides.{AreOpeningListenings, FitsReadGroup, HasListened, IsListening, IsSubscriber, ReadsLongKeys, ReadsNoKeys};
ghost use Rattle.device.specs.Takings.{AnswersNoOthers, HasTaken, HaveTaken};

use crate::asked::NoValue;
use crate::due::earlier;
use crate::listening::Listening;
use crate::making::{has_long_keys, keygroup_of, listenings_of};
use crate::takings::{MOST_READ_GROUPS, Takings};
use crate::words::is_scalar_at;
use dataset_meta::Meta;
use dataset_reader::Reader;
use group_keys::Ring;
use ps_config::{Config, ConfigEnd, read_config};
use reader_group::{Notice, Refusal, Refused, Taken, TokenNumber};
use std::alloc::Global;
use ua_base::NoMemory;
use ua_values::{Kind, Value};
use uadp_header::{Header, HeaderFault, read_header};

/// The most bytes of a datagram that `Subscriber::take` takes: more than UDP carries.
pub const MOST_BYTES: usize = 65_536;

/// The read groups of a configuration (OPC 10000-14 6.2.8, ReaderGroup). All readers are on at first.
#[derive(Drop)]
pub struct Subscriber {
    pub config: Config,
    pub groups: Vec<Listening>,
    /// For the copy of a datagram that a read group decrypts.
    pub room: Vec<u8>,
}

impl Subscriber {
    /// The subscriber of the configuration that the text is, before any datagram. It takes all memory that it ever needs.
    pub fn open(alloc: Global, text: &[u8]) -> Result<Subscriber, ConfigEnd>
        ensures subscriber { IfOk result IsSubscriber }
        ensures ok { IfOk result (λ subscriber. configuration text.now ≡ Ok subscriber.config) }
        ensures groups { IfOk result (λ subscriber.
            AreOpeningListenings subscriber.config subscriber.groups.items) }
        ensures refused { IfErr result (IsEnd (configuration text.now)) }
    {
        let config = read_config(alloc, text)?;
        match subscriber_of(alloc, config) {
            Ok(subscriber) => Ok(subscriber),
            Err(NoMemory) => Err(ConfigEnd::Memory),
        }
    }

    /// A datagram comes to the read group with this index at `now`, in milliseconds, which must not fall (`ReaderGroup::datagram`).
    /// It may be decrypted in place, so give each read group a copy of its own where there are several. None where there is no such
    /// read group, and then nothing changes.
    pub fn datagram(
        &mut self,
        group: u8,
        now: u64,
        bytes: &mut [u8],
    ) -> Option<Result<Taken, Refusal>>
        requires { IsSubscriber self.old }
        ensures subscriber { IsSubscriber self.new }
        ensures listened { IfSome result (HasListened group now bytes.old bytes.new
            self.old self.new) }
        ensures none { IfNone result (self.new ≡ self.old) }
        ensures bytes { IfNone result (bytes.new ≡ bytes.old) }
        ensures absent { IfNone result (length self.old.groups.items ≤ group) }
    {
        let index = usize::from(group);
        if index >= self.groups.len() {
            return None;
        }
        Some(self.groups[index].datagram(&self.config, now, bytes))
    }

    /// A datagram comes to all read groups at `now`, in milliseconds: what `datagram` does for each of them in their order, each with a
    /// copy of its own. The header is read once, and a copy is made for those alone that don't refuse the datagram by it. The bytes stay.
    pub fn take(&mut self, now: u64, bytes: &[u8]) -> Takings
        requires subscriber { IsSubscriber self.old }
        requires room { length bytes.now ≤ MOST_BYTES }
        ensures subscriber { IsSubscriber self.new }
        ensures taken { HaveTaken (length self.old.groups.items) now bytes.now result.answers
            self.old self.new }
        ensures others { AnswersNoOthers (length self.old.groups.items) result.answers }
    {
        let read = read_header(bytes);
        let mut answers = [None; MOST_READ_GROUPS];
        for g in 0..self.groups.len() {
            answers[g] = Some(self.take_one(g, now, bytes, &read));
        }
        Takings { answers }
    }

    /// A datagram whose header was read so comes to the read group at this index.
    fn take_one(
        &mut self,
        index: usize,
        now: u64,
        bytes: &[u8],
        read: &Result<(Header<'_>, usize), HeaderFault>,
    ) -> Result<Taken, Refusal>
        requires subscriber { IsSubscriber self.old }
        requires index { index < length self.old.groups.items }
        requires room { length bytes.now ≤ MOST_BYTES }
        requires read { GivesHeader read.now bytes.now }
        ensures subscriber { IsSubscriber self.new }
        ensures taken { HasTaken index now bytes.now self.old self.new (Some result) }
    {
        let listening = &mut self.groups[index];
        match listening.refuse(&self.config, bytes, read) {
            Some(refusal) => Err(refusal),
            None => listening.datagram_copied(&self.config, now, bytes, &mut self.room),
        }
    }

    /// Time goes on to `now`, in milliseconds, for all readers (`ReaderGroup::expire`).
    pub fn expire(&mut self, now: u64)
        requires { IsSubscriber self.old }
        ensures subscriber { IsSubscriber self.new }
        ensures expired { HaveExpired now self.old self.new }
    {
        for g in 0..self.groups.len() {
            self.groups[g].expire(&self.config, now);
        }
    }

    /// The first moment from `now` on, in milliseconds, at which a reader times out, as long as no datagram comes. So a program may
    /// sleep until then, or until a datagram comes, and call `expire`. None where none will.
    pub fn due(&self, now: u64) -> Option<u64>
        ensures { TellsFirst now (λ t. All (AreInTime t) self.now.groups.items)
            (λ t. Any (HasTimeout t) self.now.groups.items) result }
    {
        let mut first = None;
        for g in 0..self.groups.len() {
            let due = self.groups[g].due(now);
            first = earlier(first, due);
        }
        first
    }

    /// The reader with this index in the read group with this index.
    pub fn reader(&self, group: u8, reader: u8) -> Option<&Reader>
        requires { IsSubscriber self.now }
        ensures reader { IfSome result (λ value. IsReaderAt group reader self.now value.now) }
        ensures none { IfNone result (IsNoReader group reader self.now) }
    {
        let index = usize::from(group);
        if index >= self.groups.len() {
            return None;
        }
        let listening = &self.groups[index];
        if reader >= listening.group.count() {
            return None;
        }
        Some(listening.group.reader(reader))
    }

    /// The value and the status of a field of the row that a reader holds.
    pub fn field(&self, group: u8, reader: u8, field: u8) -> Result<(Value, u32), NoValue>
        requires { IsSubscriber self.now }
        ensures value { IfOk result (λ x. Keeps group reader (HasFieldValue field x.0) self.now) }
        ensures status { IfOk result (λ x. Keeps group reader (HasFieldStatus field x.1) self.now) }
        ensures none { IfErr result (IsUntoldAt HasNoMisfit group reader field self.now) }
    {
        let index = usize::from(group);
        if index >= self.groups.len() {
            return Err(NoValue::NoField);
        }
        field_in(&self.config, &self.groups[index], reader, field)
    }

    /// The word of a field of this kind, which is a scalar's, of the row that a reader holds (`Row::word`).
    pub fn word(&self, group: u8, reader: u8, field: u8, kind: Kind) -> Result<u64, NoValue>
        requires { IsSubscriber self.now }
        ensures word { IfOk result (λ word.
            Keeps group reader (HasFieldValue field (scalar_in kind word)) self.now) }
        ensures kind { IfOk result (λ word. Keeps group reader (IsOfKind field kind) self.now) }
        ensures none { IfErr result
            (IsUntoldAt (IsOfOtherKind field kind) group reader field self.now) }
    {
        let index = usize::from(group);
        if index >= self.groups.len() {
            return Err(NoValue::NoField);
        }
        word_in(&self.config, &self.groups[index], reader, field, kind)
    }

    /// The moment at which the row that a reader holds was last confirmed, in milliseconds (`ReaderGroup::confirmed`). None where it
    /// holds no row, or where there is no such reader.
    pub fn confirmed(&self, group: u8, reader: u8) -> Option<u64>
        ensures moment { IfSome result (λ moment.
            IsConfirmedFor group reader (Some moment) self.now) }
        ensures none { IfNone result (IsUnconfirmed group reader self.now) }
    {
        let index = usize::from(group);
        if index >= self.groups.len() {
            return None;
        }
        self.groups[index].confirmed(reader)
    }

    /// How long ago, at `now`, the row that a reader holds was last confirmed, in milliseconds; 0 where that was later. None where it
    /// holds no row, or where there is no such reader.
    pub fn age(&self, group: u8, reader: u8, now: u64) -> Option<u64>
        ensures age { IfSome result (λ age. HasAge group reader now age self.now) }
        ensures none { IfNone result (IsUnconfirmed group reader self.now) }
    {
        match self.confirmed(group, reader) {
            Some(moment) => Some(now.saturating_sub(moment)),
            None => None,
        }
    }

    /// Whether a reader holds a row that was confirmed at most so many milliseconds before `now`: what a machine may rest on, which a
    /// timeout alone isn't, as delta frames and keep-alives behind a lost message begin it anew. False where there is no such reader.
    pub fn is_fresh(&self, group: u8, reader: u8, now: u64, bound: u64) -> bool
        ensures fresh { OnTrue result (IsFreshFor group reader now bound self.now) }
        ensures stale { OnFalse result (IsStale group reader now bound self.now) }
    {
        let index = usize::from(group);
        if index >= self.groups.len() {
            return false;
        }
        self.groups[index].is_fresh(reader, now, bound)
    }

    /// What the read group with this index refused since it was opened (`ReaderGroup::refused`).
    pub fn refused(&self, group: u8) -> Option<&Refused>
        ensures refused { IfSome result (λ refused. HasRefused group self.now refused.now) }
        ensures none { IfNone result (length self.now.groups.items ≤ group) }
    {
        let index = usize::from(group);
        if index >= self.groups.len() {
            return None;
        }
        Some(self.groups[index].group.refused())
    }

    /// The token and the number of the last datagram that the read group with this index accepted under a security header
    /// (`ReaderGroup::last_taken`): none where none was. None where there is no such read group.
    pub fn last_taken(&self, group: u8) -> Option<Option<TokenNumber>>
        ensures taken { IfSome result (HasLastTaken group self.now) }
        ensures none { IfNone result (length self.now.groups.items ≤ group) }
    {
        let index = usize::from(group);
        if index >= self.groups.len() {
            return None;
        }
        Some(self.groups[index].group.last_taken())
    }

    /// What is noted of the parts for a reader (`ReaderGroup::notice`).
    pub fn notice(&self, group: u8, reader: u8) -> Option<Notice>
        ensures notice { IfSome result (IsNoticeFor group reader self.now) }
        ensures none { IfNone result (IsNoReader group reader self.now) }
    {
        let index = usize::from(group);
        if index >= self.groups.len() {
            return None;
        }
        self.groups[index].notice(reader)
    }

    /// The read group with this index takes datagrams of this NetworkMessageNumber alone from now on (OPC 10000-14 6.3.1.4, of a
    /// DataSetReader), of any where it is 0, as at first. Others are refused as `NotOurs`. False, and nothing changes, where there is
    /// no such read group.
    pub fn set_network_message_number(&mut self, group: u8, number: u16) -> bool
        requires { IsSubscriber self.old }
        ensures subscriber { IsSubscriber self.new }
        ensures set { OnTrue result (HasNumber group number self.old self.new) }
        ensures not { OnFalse result (self.new ≡ self.old) }
        ensures absent { OnFalse result (length self.old.groups.items ≤ group) }
    {
        let index = usize::from(group);
        if index >= self.groups.len() {
            return false;
        }
        self.groups[index].set_number(&self.config, number);
        true
    }

    /// Switches the reader with this index in the read group with this index on or off. One that is switched off holds no row, and is
    /// given nothing. False, and nothing changes, where there is no such reader.
    pub fn switch(&mut self, group: u8, reader: u8, on: bool) -> bool
        requires { IsSubscriber self.old }
        ensures subscriber { IsSubscriber self.new }
        ensures switched { OnTrue result (HasReaderSwitched group reader on self.old self.new) }
        ensures not { OnFalse result (self.new ≡ self.old) }
        ensures absent { OnFalse result (IsNoReader group reader self.old) }
    {
        let index = usize::from(group);
        if index >= self.groups.len() {
            return false;
        }
        if reader >= self.groups[index].group.count() {
            return false;
        }
        self.groups[index].switch(&self.config, reader, on);
        true
    }

    /// Whether the key group of the read group with this index has keys of AES-256. None where there is no such read group, or where it
    /// isn't secured.
    pub fn has_long_keys(&self, group: u8) -> Option<bool>
        ensures long { IfSome result (ReadsLongKeys self.now.config group) }
        ensures none { IfNone result (ReadsNoKeys self.now.config group) }
    {
        match keygroup_of(&self.config, group) {
            Some(keygroup) => has_long_keys(&self.config, keygroup),
            None => None,
        }
    }

    /// The read group with this index goes on with another ring (`ReaderGroup::renew`). Where it is secured the ring's keys have to be
    /// as long as those of its key group: `has_long_keys` tells how long these are. False, and nothing changes, where there is no such
    /// read group.
    pub fn renew(&mut self, group: u8, ring: Ring) -> bool
        requires subscriber { IsSubscriber self.old }
        requires long { FitsReadGroup self.old.config group (is_long ring) }
        ensures subscriber { IsSubscriber self.new }
        ensures renewed { OnTrue result
            (HasKeysRenewed group (map keys_in (key_sets ring)) self.old self.new) }
        ensures not { OnFalse result (self.new ≡ self.old) }
        ensures absent { OnFalse result (length self.old.groups.items ≤ group) }
    {
        let index = usize::from(group);
        if index >= self.groups.len() {
            return false;
        }
        self.groups[index].renew(&self.config, ring);
        true
    }
}

/// The subscriber of a configuration, before any datagram.
fn subscriber_of(alloc: Global, config: Config) -> Result<Subscriber, NoMemory>
    requires { IsGood config }
    ensures subscriber { IfOk result IsSubscriber }
    ensures config { IfOk result (λ subscriber. subscriber.config ≡ config) }
    ensures groups { IfOk result (λ subscriber.
        AreOpeningListenings config subscriber.groups.items) }
{
    let groups = listenings_of(alloc, &config)?;
    let room = vec![in alloc; 0; MOST_BYTES]?;
    Ok(Subscriber {
        config,
        groups,
        room,
    })
}

/// The value and the status of a field of the row that a reader of the group holds.
fn field_in(
    config: &Config,
    listening: &Listening,
    reader: u8,
    field: u8,
) -> Result<(Value, u32), NoValue>
    requires sound { IsSound config.now }
    requires listening { IsListening config.now listening.now }
    ensures value { IfOk result (λ x.
        ReaderKeeps config.now reader (HasFieldValue field x.0) listening.now) }
    ensures status { IfOk result (λ x.
        ReaderKeeps config.now reader (HasFieldStatus field x.1) listening.now) }
    ensures none { IfErr result (λ none.
        IsUntold HasNoMisfit config.now reader field none listening.now) }
{
    if reader >= listening.group.count() {
        return Err(NoValue::NoField);
    }
    let meta = meta_of(config, listening, reader);
    if usize::from(field) >= meta.fields().len() {
        return Err(NoValue::NoField);
    }
    let holder = listening.group.reader(reader);
    let Some(row) = holder.row() else {
        return Err(NoValue::NoRow);
    };
    let value = row.field(meta, field);
    let status = row.status(meta, field);
    Ok((value, status))
}

/// The word of a scalar field of the row that a reader of the group holds.
fn word_in(
    config: &Config,
    listening: &Listening,
    reader: u8,
    field: u8,
    kind: Kind,
) -> Result<u64, NoValue>
    requires sound { IsSound config.now }
    requires listening { IsListening config.now listening.now }
    ensures word { IfOk result (λ word.
        ReaderKeeps config.now reader (HasFieldValue field (scalar_in kind word)) listening.now) }
    ensures kind { IfOk result (λ word.
        ReaderKeeps config.now reader (IsOfKind field kind) listening.now) }
    ensures none { IfErr result (λ none.
        IsUntold (IsOfOtherKind field kind) config.now reader field none listening.now) }
{
    if reader >= listening.group.count() {
        return Err(NoValue::NoField);
    }
    let meta = meta_of(config, listening, reader);
    if usize::from(field) >= meta.fields().len() {
        return Err(NoValue::NoField);
    }
    let holder = listening.group.reader(reader);
    if !is_scalar_at(meta, field, kind) {
        return Err(NoValue::Misfit);
    }
    let Some(row) = holder.row() else {
        return Err(NoValue::NoRow);
    };
    Ok(row.word(meta, field))
}

/// The meta of the data set of the reader with this index.
fn meta_of<'c>(config: &'c Config, listening: &Listening, reader: u8) -> &'c Meta
    requires sound { IsSound config.now }
    requires listening { IsListening config.now listening.now }
    requires reader { reader < reads.reader_count listening.now.group }
    ensures { result.now ≡ meta_for config.now listening.now reader }
{
    let part = &config.readgroup.as_slice()[usize::from(listening.index)];
    let reader = &part.reader.as_slice()[usize::from(reader)];
    &config.dataset.as_slice()[usize::from(reader.dataset)]
}
