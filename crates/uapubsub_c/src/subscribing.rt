//! The subscriber's calls, but those that get fields.
ghost use Rattle.std.specs.Prelude.{◌≡◌, ◌≢◌, ◌<◌, IfErr, IfNone, IfSome};
ghost use Rattle.device.specs.Readings.{IsReaderAt};
ghost use Rattle.device.specs.Sides.{IsSubscriber};
ghost use Rattle.uapubsub_c.specs.Answers.{Asks, Calls, IsSeen, OfSubscriber, Stays};
ghost use Rattle.uapubsub_c.specs.Handles.{IsReady, IsSound};
ghost use Rattle.uapubsub_c.specs.Keys.{RenewsRead};
ghost use Rattle.uapubsub_c.specs.Numbers.{why_number};
ghost use Rattle.uapubsub_c.specs.Opening.{OpensASubscriber};
ghost use Rattle.uapubsub_c.specs.Reading.{Expires, HasNoReader, IsUnrefused, Listens, SeesWaiting, TellsNumber, TellsWaiting, TellsWhy, taken_in};

use crate::handle::Handle;
use crate::indexes::{one_index, two_indexes};
use crate::kept::Kept;
use crate::keys::{KeySetWords, ring_of_words};
use crate::status::{Status, number_of, tell};
use dataset_reader::Reader;
use device::Subscriber;
use ps_config::ConfigEnd;
use pubsub_model::Why;
use reader_group::Taken;
use std::alloc::Global;

/// What became of the messages of a datagram that was taken, as C sees it.
#[repr(C)]
#[derive(Clone, Copy)]
pub struct TakenWords {
    /// How many messages, chunks or slots there were.
    pub parts: u32,
    /// How often one was given to a reader.
    pub matched: u32,
    /// How many of these couldn't be read.
    pub bad: u32,
}

/// Opens the handle with a subscriber of the configuration that the text is. It takes all memory that the subscriber ever needs.
#[unsafe(no_mangle)]
pub extern "C" fn uapubsub_subscriber_open(alloc: Global, handle: &mut Handle, text: &[u8]) -> u32
    requires { IsReady handle.old }
    ensures ready { IsReady handle.new }
    ensures opens { IsSeen (OpensASubscriber text.now handle.old handle.new) result }
{
    number_of(open(alloc, handle, text))
}

fn open(alloc: Global, handle: &mut Handle, text: &[u8]) -> Result<(), Status>
    requires { IsReady handle.old }
    ensures ready { IsReady handle.new }
    ensures opens { OpensASubscriber text.now handle.old handle.new result }
{
    if handle.is_open != 0 {
        return Err(Status::Opened);
    }
    match Subscriber::open(alloc, text) {
        Ok(subscriber) => handle.keep(alloc, Kept::Subscriber(subscriber)),
        Err(ConfigEnd::Refused { .. }) => Err(Status::Refused),
        Err(ConfigEnd::Memory) => Err(Status::Memory),
    }
}

/// A datagram comes to the read group with this index at `now`, in milliseconds, which must not fall. Where it is taken `taken` says
/// what became of its messages; a number from 100 on says why it is refused, and then nothing changes. Its bytes may be decrypted in
/// place, so give each read group a copy of its own where there are several.
#[unsafe(no_mangle)]
pub extern "C" fn uapubsub_subscriber_datagram(
    alloc: Global,
    handle: &mut Handle,
    group: u32,
    now: u64,
    bytes: &mut [u8],
    taken: &mut TakenWords,
) -> u32
    requires { IsReady handle.old }
    ensures listens { Calls (OfSubscriber (Listens group now bytes.old bytes.new taken.new))
        handle.old result handle.new }
    ensures bytes { result ≢ 0 → result < 100 → bytes.new ≡ bytes.old }
    ensures untold { result ≢ 0 → taken.new ≡ taken.old }
{
    let Some(mut kept) = handle.take(alloc) else {
        return Status::Closed.number();
    };
    let answer = datagram_in(&mut kept, group, now, bytes, taken);
    handle.put(kept);
    number_of(answer)
}

fn datagram_in(
    kept: &mut Kept,
    group: u32,
    now: u64,
    bytes: &mut [u8],
    taken: &mut TakenWords,
) -> Result<(), Status>
    requires { IsSound kept.old }
    ensures sound { IsSound kept.new }
    ensures listens { OfSubscriber (Listens group now bytes.old bytes.new taken.new)
        kept.old result kept.new }
    ensures bytes { IfErr result (IsUnrefused (bytes.new ≡ bytes.old)) }
    ensures untold { IfErr result (λ _. taken.new ≡ taken.old) }
{
    match kept {
        Kept::Subscriber(subscriber) => datagram(subscriber, group, now, bytes, taken),
        Kept::Publisher(_) => Err(Status::OtherSide),
    }
}

fn datagram(
    subscriber: &mut Subscriber,
    group: u32,
    now: u64,
    bytes: &mut [u8],
    taken: &mut TakenWords,
) -> Result<(), Status>
    requires { IsSubscriber subscriber.old }
    ensures subscriber { IsSubscriber subscriber.new }
    ensures listens { Listens group now bytes.old bytes.new taken.new
        subscriber.old result subscriber.new }
    ensures bytes { IfErr result (IsUnrefused (bytes.new ≡ bytes.old)) }
    ensures untold { IfErr result (λ _. taken.new ≡ taken.old) }
{
    let Some(group) = one_index(group) else {
        return Err(Status::Index);
    };
    match subscriber.datagram(group, now, bytes) {
        None => Err(Status::Index),
        Some(Err(refusal)) => Err(Status::Datagram(refusal)),
        Some(Ok(answer)) => {
            *taken = words_of(answer);
            Ok(())
        }
    }
}

fn words_of(taken: Taken) -> TakenWords
    ensures { taken_in result ≡ taken }
{
    TakenWords {
        parts: taken.parts,
        matched: taken.matched,
        bad: taken.bad,
    }
}

/// Time goes on to `now`, in milliseconds, for all readers: one whose timeout has passed is late, and holds no row.
#[unsafe(no_mangle)]
pub extern "C" fn uapubsub_subscriber_expire(alloc: Global, handle: &mut Handle, now: u64) -> u32
    requires { IsReady handle.old }
    ensures { Calls (OfSubscriber (Expires now)) handle.old result handle.new }
{
    number_of(handle.subscriber(alloc, |subscriber| expire(subscriber, now)))
}

fn expire(subscriber: &mut Subscriber, now: u64) -> Result<(), Status>
    requires { IsSubscriber subscriber.old }
    ensures subscriber { IsSubscriber subscriber.new }
    ensures expires { Expires now subscriber.old result subscriber.new }
{
    subscriber.expire(now);
    Ok(())
}

/// The read group with this index goes on with other key sets, in the order of their tokens and moments, at most 16.
#[unsafe(no_mangle)]
pub extern "C" fn uapubsub_subscriber_renew(
    alloc: Global,
    handle: &mut Handle,
    group: u32,
    sets: &[KeySetWords],
) -> u32
    requires { IsReady handle.old }
    ensures { Calls (OfSubscriber (RenewsRead group sets.now)) handle.old result handle.new }
{
    number_of(handle.subscriber(alloc, |subscriber| renew(subscriber, group, sets)))
}

fn renew(subscriber: &mut Subscriber, group: u32, sets: &[KeySetWords]) -> Result<(), Status>
    requires { IsSubscriber subscriber.old }
    ensures subscriber { IsSubscriber subscriber.new }
    ensures renews { RenewsRead group sets.now subscriber.old result subscriber.new }
{
    let Some(group) = one_index(group) else {
        return Err(Status::Index);
    };
    let Some(long) = subscriber.has_long_keys(group) else {
        return Err(Status::Index);
    };
    let ring = match ring_of_words(long, sets) {
        Ok(ring) => ring,
        Err(status) => return Err(status),
    };
    if subscriber.renew(group, ring) {
        Ok(())
    } else {
        Err(Status::Index)
    }
}

/// Why a reader waits: 0 for its first key frame, 1 after a gap, 2 after its timeout, 3 after a new token, 4 after a jump of numbers,
/// 5 after it was disabled. 0 where it holds a row, with why it held none before; 1 (UAP_NONE) where it waits.
#[unsafe(no_mangle)]
pub extern "C" fn uapubsub_reader_why(
    alloc: Global,
    handle: &mut Handle,
    group: u32,
    reader: u32,
    why: &mut u32,
) -> u32
    requires { IsReady handle.old }
    ensures { TellsWhy group reader handle.old result why.old why.new handle.new }
{
    let answer = handle.ask_subscriber(alloc, |subscriber| waiting_of(subscriber, group, reader));
    tell_why(answer, why)
}

/// Tells C why a reader waits or waited, and by the number whether it holds a row.
fn tell_why(answer: Result<(bool, u32), Status>, why: &mut u32) -> u32
    ensures { SeesWaiting answer result why.old why.new }
{
    match answer {
        Ok((holds, reason)) => {
            *why = reason;
            if holds { 0 } else { Status::Nothing.number() }
        }
        Err(status) => status.number(),
    }
}

/// Whether the reader holds a row, and why it holds none, or held none before.
fn waiting_of(subscriber: &Subscriber, group: u32, reader: u32) -> Result<(bool, u32), Status>
    requires { IsSubscriber subscriber.now }
    ensures { TellsWaiting group reader subscriber.now result }
{
    match reader_of(subscriber, group, reader) {
        None => Err(Status::Index),
        Some(holder) => {
            let why = why_number(holder.why());
            match holder.row() {
                Some(_) => Ok((true, why)),
                None => Ok((false, why)),
            }
        }
    }
}

fn why_number(why: Why) -> u32
    ensures { result ≡ why_number why }
{
    match why {
        Why::Start => 0,
        Why::Gap => 1,
        Why::Timeout => 2,
        Why::NewToken => 3,
        Why::Jump => 4,
        Why::Restarted => 5,
    }
}

/// The number of the message that the held row was last made of.
#[unsafe(no_mangle)]
pub extern "C" fn uapubsub_reader_number(
    alloc: Global,
    handle: &mut Handle,
    group: u32,
    reader: u32,
    number: &mut u16,
) -> u32
    requires { IsReady handle.old }
    ensures { Asks (OfSubscriber (Stays (TellsNumber group reader)))
        handle.old result number.old number.new handle.new }
{
    let answer = handle.ask_subscriber(alloc, |subscriber| {
        message_number_of(subscriber, group, reader)
    });
    tell(answer, number)
}

fn message_number_of(subscriber: &Subscriber, group: u32, reader: u32) -> Result<u16, Status>
    requires { IsSubscriber subscriber.now }
    ensures { TellsNumber group reader subscriber.now result }
{
    let Some(holder) = reader_of(subscriber, group, reader) else {
        return Err(Status::Index);
    };
    match holder.number() {
        Some(number) => Ok(number),
        None => Err(Status::Nothing),
    }
}

/// The reader with this index in the read group with this index.
fn reader_of(subscriber: &Subscriber, group: u32, reader: u32) -> Option<&Reader>
    requires { IsSubscriber subscriber.now }
    ensures reader { IfSome result (λ value. IsReaderAt group reader subscriber.now value.now) }
    ensures none { IfNone result (HasNoReader group reader subscriber.now) }
{
    let Some((group, reader)) = two_indexes(group, reader) else {
        return None;
    };
    subscriber.reader(group, reader)
}
