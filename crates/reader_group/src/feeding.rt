//! What a datagram brings the readers of a group.
ghost use Rattle.std.specs.Prelude.{◌≡◌, ◌≤◌, ◌<◌, false, length, count_by, slice_index_or, Contains};
ghost use Rattle.std.specs.List.{HoldsAt};
ghost use Rattle.ps_config.specs.Sound.{IsSound};
ghost use Rattle.reader_group.specs.Members.{seat_of, stopped, expired};
ghost use Rattle.reader_group.specs.Settings.{setting_by};
ghost use Rattle.reader_group.specs.Groups.{AreReaders, AllBecome, AreFedBy, AreNotedBy, AreTallied, KeepReaders, ChangesAt};
ghost use Rattle.reader_group.specs.MemberWords.{HoldsRowsOf, BecomesAt, IsFedAt, IsAccountAt, IsTalliedAt, KeepsRowsAt};
ghost use Rattle.reader_group.specs.Held.{payload_in};
ghost use Rattle.reader_group.specs.Notices.{IsNotedAt};
ghost use Rattle.reader_group.specs.Payloads.{part_count};
ghost use Rattle.reader_group.specs.Plain.{all_expired, one_stopped};

use crate::account::Account;
use crate::member::Member;
use crate::notice::Notice;
use crate::payload::Payload;
use crate::receipt::Receipt;
use crate::tally::Tally;
use dataset_meta::Meta;
use ps_config::{Config, ReadGroupPart, ReaderPart};
use pubsub_model::Why;

/// Each reader gets what the datagram brings it.
pub(crate) fn feed_all(
    members: &mut [Member],
    notices: &mut [Notice],
    config: &Config,
    group: &ReadGroupPart,
    receipt: &Receipt,
    raised: bool,
    on: &[bool],
    payload: &Payload<'_>,
) -> Tally
    requires sound { IsSound config.now }
    requires group { Contains config.now.readgroup group.now }
    requires readers { AreReaders (setting_by config.now group.now).seats members.old }
    requires on { length on.now ≡ length members.old }
    requires notices { length members.old ≤ length notices.old }
    ensures members { AreFedBy (setting_by config.now group.now).seats receipt.now raised on.now
        (payload_in payload.now) members.old members.new }
    ensures tally { AreTallied (setting_by config.now group.now).seats receipt.now raised on.now
        (payload_in payload.now) members.old result }
    ensures notices { AreNotedBy (setting_by config.now group.now).seats receipt.now raised on.now
        (payload_in payload.now) members.old notices.old notices.new }
    ensures count { length notices.new ≡ length notices.old }
    ensures readers { AreReaders (setting_by config.now group.now).seats members.new }
{
    let mut tally = Tally::NONE;
    for index in 0..members.len() {
        let reader = reader_at(group, index);
        let meta = meta_at(config, reader.dataset);
        let enabled = is_on(on, index);
        let account = feed_at(
            members, index, reader, meta, receipt, raised, enabled, payload,
        );
        tally.add(&account.tally);
        note_at(notices, index, receipt.moment, &account);
    }
    tally
}

fn note_at(notices: &mut [Notice], index: usize, now: u64, account: &Account)
    requires { index < length notices.old }
    ensures { IsNotedAt index now account.now notices.old notices.new }
{
    notices[index].note(now, account);
}

fn reader_at(group: &ReadGroupPart, index: usize) -> &ReaderPart
    requires { index < length group.now.reader }
    ensures { result.now ≡ slice_index_or group.now.reader index result.now }
{
    &group.reader.as_slice()[index]
}

fn is_on(on: &[bool], index: usize) -> bool
    requires { index < length on.now }
    ensures { result ≡ slice_index_or on.now index false }
{
    on[index]
}

fn meta_at(config: &Config, index: u8) -> &Meta
    requires { index < length config.now.dataset }
    ensures { result.now ≡ slice_index_or config.now.dataset index result.now }
{
    &config.dataset.as_slice()[usize::from(index)]
}

// The reader at an index gets what the datagram brings it.
fn feed_at(
    members: &mut [Member],
    index: usize,
    part: &ReaderPart,
    meta: &Meta,
    receipt: &Receipt,
    raised: bool,
    enabled: bool,
    payload: &Payload<'_>,
) -> Account
    requires index { index < length members.old }
    requires reader { HoldsAt (HoldsRowsOf meta.now) members.old index }
    ensures member { IsFedAt (seat_of part.now meta.now) receipt.now raised enabled
        (payload_in payload.now) index members.old members.new }
    ensures tally { IsTalliedAt (seat_of part.now meta.now) receipt.now raised enabled
        (payload_in payload.now) index members.old result.tally }
    ensures account { IsAccountAt (seat_of part.now meta.now) receipt.now raised enabled
        (payload_in payload.now) index members.old result }
    ensures reader { HoldsAt (HoldsRowsOf meta.now) members.new index }
    ensures others { ChangesAt index members.old members.new }
    ensures count { length members.new ≡ length members.old }
    ensures matched { result.tally.matched ≤ 255 }
    ensures bad { result.tally.bad ≤ 255 }
{
    let member = &mut members[index];
    member.feed(part, meta, receipt, raised, enabled, payload)
}

/// The timer of each reader is looked at.
pub(crate) fn expire_all(members: &mut [Member], now: u64)
    ensures members { AllBecome (λ seats values. all_expired seats now values)
        members.old members.new }
    ensures readers { KeepReaders members.old members.new }
    ensures count { length members.new ≡ length members.old }
{
    for index in 0..members.len() {
        expire_at(members, index, now);
    }
}

fn expire_at(members: &mut [Member], index: usize, now: u64)
    requires { index < length members.old }
    ensures member { BecomesAt (λ seat value. expired seat.part.timeout now value) index
        members.old members.new }
    ensures reader { KeepsRowsAt index members.old members.new }
    ensures others { ChangesAt index members.old members.new }
    ensures count { length members.new ≡ length members.old }
{
    let member = &mut members[index];
    member.expire(now);
}

/// One reader is cut by hand.
pub(crate) fn stop_one(members: &mut [Member], index: usize, why: Why)
    requires { index < length members.old }
    ensures members { AllBecome (λ seats values. one_stopped seats index why values)
        members.old members.new }
    ensures readers { KeepReaders members.old members.new }
    ensures count { length members.new ≡ length members.old }
{
    stop_at(members, index, why);
}

fn stop_at(members: &mut [Member], index: usize, why: Why)
    requires { index < length members.old }
    ensures member { BecomesAt (λ seat value. stopped why value) index members.old members.new }
    ensures reader { KeepsRowsAt index members.old members.new }
    ensures others { ChangesAt index members.old members.new }
    ensures count { length members.new ≡ length members.old }
{
    let member = &mut members[index];
    member.stop(why);
}

/// How many parts a datagram has: in a fixed layout a slot for each enabled reader.
pub(crate) fn part_count(on: &[bool], payload: &Payload<'_>) -> u32
    requires { length on.now ≤ 16 }
    ensures { result ≡ part_count on.now (payload_in payload.now) }
{
    match payload {
        Payload::Slots(_) => enabled_count(on) as u32,
        Payload::Chunk { .. } => 1,
        Payload::Messages(messages) => messages.parts.len() as u32,
    }
}

fn enabled_count(on: &[bool]) -> usize
    ensures { result ≡ count_by (λ enabled. enabled) on.now }
{
    on.iter().filter(|enabled| **enabled).count()
}
