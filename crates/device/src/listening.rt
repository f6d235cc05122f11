//! A read group, of a configuration that its subscriber keeps.
ghost use Rattle.std.specs.Prelude.{◌≡◌, ◌<◌, ◌≤◌, IfOk, IfSome, IfNone, OnErr, None, Some, false, true, length, slice_index_or};
ghost use Rattle.std.specs.Bool.{OnFalse, OnTrue};
ghost use Rattle.dataset_meta.specs.Rows.{FitsAt};
ghost use Rattle.group_keys.specs.Ring.{key_sets};
ghost use Rattle.message_guard.specs.Protection.{keys_in};
ghost use Rattle.ps_config.specs.Sound.{IsSound};
ghost use Rattle.uadp_header.specs.Reading.{GivesHeader};
ghost use Rattle.reader_group.specs.Filter.{takes_number};
ghost use Rattle.reader_group.specs.Notices.{notice_at};
ghost use Rattle.reader_group.specs.Groups.{GoesOnWith, HadIf, IsConfirmedAt, IsFreshAt, IsMadeOf, IsRefusedUnread, index_of, notices_of, reader_count, refused_of};
ghost use Rattle.ps_config.specs.declared.parts.Config.{Config as ConfigValue};
ghost use Rattle.device.specs.Due.{AreInTime, HasTimeout, IsInTime, TellsFirst, TimesOut};
ghost use Rattle.device.specs.Readings.{HasExpired, HasGoneOff, HasSwitchedReader};
ghost use Rattle.device.specs.Takings.{HadCopy};
ghost use Rattle.device.specs.Sides.{IsListening, IsOpeningListening, KeepsNotes, NotesRefusal};

use crate::due::earlier;
use dataset_reader::Reader;
use group_keys::Ring;
use ps_config::{Config, ReadGroupPart};
use pubsub_model::Why;
use reader_group::{Notice, ReaderGroup, Refusal, Taken};
use std::alloc::Global;
use ua_base::NoMemory;
use uadp_header::{Header, HeaderFault};

/// A read group, whose readers are all on at first, with its place in the configuration.
#[derive(Drop)]
pub struct Listening {
    pub index: u8,
    pub group: ReaderGroup,
    pub on: Vec<bool>,
    /// The NetworkMessageNumber of the datagrams that it takes, 0 for any.
    pub number: u16,
}

impl Listening {
    ghost use Rattle.std.specs.Prelude.{◌≡◌, ◌<◌, ◌≤◌, length, map, IfOk, IfNone, IfSome, None, Some, false, true};

    /// The read group with this index, before anything.
    pub fn new(alloc: Global, config: &Config, index: u8) -> Result<Listening, NoMemory>
        requires sound { IsSound config.now }
        requires index { index < length config.now.readgroup }
        ensures listening { IfOk result (IsListening config.now) }
        ensures opening { IfOk result (IsOpeningListening config.now index) }
    {
        let group = ReaderGroup::new(alloc, config, index)?;
        let on = vec![in alloc; true; usize::from(group.count())]?;
        Ok(Listening {
            index,
            group,
            on,
            number: 0,
        })
    }

    /// A datagram comes at this moment, in milliseconds (`ReaderGroup::datagram_of_number`). It may be decrypted in place.
    pub fn datagram(
        &mut self,
        config: &Config,
        now: u64,
        bytes: &mut [u8],
    ) -> Result<Taken, Refusal>
        requires { IsListening config.now self.old }
        ensures listening { IsListening config.now self.new }
        ensures had { HadIf (takes_number self.old.number bytes.old) config.now
            self.old.group self.new.group now self.old.on.items bytes.old bytes.new result }
        ensures refused { NotesRefusal result bytes.old self.old self.new }
        ensures rest { self.new ≡ record self.old { group = self.new.group } }
    {
        self.group
            .datagram_of_number(config, self.number, now, &self.on, bytes)
    }

    /// What `datagram` does, with a copy that it makes in this room. The bytes stay.
    pub fn datagram_copied(
        &mut self,
        config: &Config,
        now: u64,
        bytes: &[u8],
        room: &mut [u8],
    ) -> Result<Taken, Refusal>
        requires listening { IsListening config.now self.old }
        requires room { length bytes.now ≤ length room.old }
        ensures listening { IsListening config.now self.new }
        ensures had { HadCopy config.now now bytes.now self.old self.new result }
        ensures refused { NotesRefusal result bytes.now self.old self.new }
        ensures rest { self.new ≡ record self.old { group = self.new.group } }
    {
        let copy = &mut room[..bytes.len()];
        copy.copy_from_slice(bytes);
        self.datagram(config, now, copy)
    }

    /// Refuses a datagram by its header alone, of which this was read (`ReaderGroup::refuse`). None, and nothing changes, where more has
    /// to be read.
    pub fn refuse(
        &mut self,
        config: &Config,
        bytes: &[u8],
        read: &Result<(Header<'_>, usize), HeaderFault>,
    ) -> Option<Refusal>
        requires listening { IsListening config.now self.old }
        requires read { GivesHeader read.now bytes.now }
        ensures listening { IsListening config.now self.new }
        ensures refused { IfSome result
            (IsRefusedUnread config.now self.old.number bytes.now self.old.group self.new.group) }
        ensures none { IfNone result (self.new ≡ self.old) }
        ensures rest { self.new ≡ record self.old { group = self.new.group } }
    {
        self.group.refuse(config, self.number, bytes, read)
    }

    /// Time goes on to this moment, in milliseconds (`ReaderGroup::expire`).
    pub fn expire(&mut self, _config: &Config, now: u64)
        requires { IsListening _config.now self.old }
        ensures listening { IsListening _config.now self.new }
        ensures expired { HasExpired now self.old self.new }
    {
        self.group.expire(now);
    }

    /// When the row of the reader with this index was confirmed (`ReaderGroup::confirmed`). None where there is no such reader.
    pub fn confirmed(&self, reader: u8) -> Option<u64>
        ensures within { IfSome result (λ moment. reader < reader_count self.now.group) }
        ensures moment { IfSome result (λ moment.
            IsConfirmedAt self.now.group reader (Some moment)) }
        ensures none { IfNone result (reader < reader_count self.now.group
            → IsConfirmedAt self.now.group reader None) }
    {
        if reader >= self.group.count() {
            return None;
        }
        self.group.confirmed(reader)
    }

    /// Whether the row of the reader with this index is fresh (`ReaderGroup::is_fresh`). False where there is no such reader.
    pub fn is_fresh(&self, reader: u8, now: u64, bound: u64) -> bool
        ensures within { OnTrue result (reader < reader_count self.now.group) }
        ensures fresh { OnTrue result (IsFreshAt self.now.group reader now bound true) }
        ensures stale { OnFalse result (reader < reader_count self.now.group
            → IsFreshAt self.now.group reader now bound false) }
    {
        if reader >= self.group.count() {
            return false;
        }
        self.group.is_fresh(reader, now, bound)
    }

    /// What is noted of the reader with this index (`ReaderGroup::notice`). None where there is no such reader.
    pub fn notice(&self, reader: u8) -> Option<Notice>
        ensures within { IfSome result (λ notice. reader < reader_count self.now.group) }
        ensures notice { IfSome result (λ notice.
            notice ≡ notice_at (notices_of self.now.group) reader) }
        ensures none { IfNone result (reader_count self.now.group ≤ reader) }
    {
        if reader >= self.group.count() {
            return None;
        }
        Some(self.group.notice(reader))
    }

    /// It takes datagrams of this NetworkMessageNumber alone, of any where that is 0.
    pub fn set_number(&mut self, _config: &Config, number: u16)
        requires { IsListening _config.now self.old }
        ensures listening { IsListening _config.now self.new }
        ensures set { self.new ≡ record self.old { number = number } }
    {
        self.number = number;
    }

    /// The first moment from `now` on, in milliseconds, at which a reader times out, as long as no datagram comes
    /// (`ReaderGroup::timeout_at`).
    pub fn due(&self, now: u64) -> Option<u64>
        ensures { TellsFirst now (λ t. AreInTime t self.now) (λ t. HasTimeout t self.now) result }
    {
        let mut first = None;
        for reader in 0..self.group.count() {
            let due = reader_due(&self.group, reader, now);
            first = earlier(first, due);
        }
        first
    }

    /// Switches the reader with this index on or off. One that is switched off forgets its row (`ReaderGroup::cut`).
    pub fn switch(&mut self, _config: &Config, reader: u8, on: bool)
        requires listening { IsListening _config.now self.old }
        requires reader { reader < reader_count self.old.group }
        ensures listening { IsListening _config.now self.new }
        ensures switched { HasSwitchedReader reader on self.old self.new }
    {
        cut_unless(&mut self.group, reader, on);
        self.on[usize::from(reader)] = on;
    }

    /// Goes on with the keys of another ring, of the same key length (`ReaderGroup::renew`).
    pub fn renew(&mut self, _config: &Config, ring: Ring)
        requires { IsListening _config.now self.old }
        ensures listening { IsListening _config.now self.new }
        ensures keys { GoesOnWith (map keys_in (key_sets ring)) self.old.group self.new.group }
        ensures notes { KeepsNotes self.old self.new }
        ensures on { self.new.on ≡ self.old.on }
        ensures index { self.new.index ≡ self.old.index }
        ensures number { self.new.number ≡ self.old.number }
    {
        self.group.renew(ring);
    }
}

/// The first moment from `now` on at which the reader with this index times out.
fn reader_due(group: &ReaderGroup, reader: u8, now: u64) -> Option<u64>
    requires { reader < reader_count group.now }
    ensures { TellsFirst now (λ t. IsInTime t reader group.now) (λ t. TimesOut t reader group.now)
        result }
{
    match group.timeout_at(reader) {
        None => None,
        Some(moment) => Some(moment.max(now)),
    }
}

/// A reader that is switched off is cut.
fn cut_unless(group: &mut ReaderGroup, reader: u8, on: bool)
    requires { reader < reader_count group.old }
    ensures gone_off { HasGoneOff reader on group.old group.new }
    ensures made { (config : ConfigValue) → IsMadeOf config group.old → IsMadeOf config group.new }
    ensures refused { refused_of group.new ≡ refused_of group.old }
    ensures notices { notices_of group.new ≡ notices_of group.old }
    ensures index { index_of group.new ≡ index_of group.old }
{
    if !on {
        group.cut(reader, Why::Restarted);
    }
}
