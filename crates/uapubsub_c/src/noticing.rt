//! What readers couldn't read or passed over, what read groups refused, and which NetworkMessages they take.
ghost use Rattle.std.specs.Prelude.{◌≡◌};
ghost use Rattle.device.specs.Sides.{IsSubscriber};
ghost use Rattle.uapubsub_c.specs.Answers.{Asks, Calls, OfSubscriber, Stays};
ghost use Rattle.uapubsub_c.specs.Handles.{IsReady};
ghost use Rattle.uapubsub_c.specs.Noticing.{TakesOnly, TellsFault, TellsPassed, TellsRefused, fault_got, fault_of, fault_words, got_if, last_words, number_if, of_if, passed_words, refused_words, sender_in, token_in, type_in, word_in};
ghost use Rattle.uapubsub_c.specs.Numbers.{fault_number};

use crate::handle::Handle;
use crate::indexes::{one_index, two_indexes};
use crate::refusals::refusal_number;
use crate::status::{Status, number_of, tell};
use chunker::ChunkFault;
use dataset_reader::Passed;
use device::Subscriber;
use frame_codec::{FieldFault, FrameFault};
use message_guard::OpenFault;
use ps_config::Publisher;
use reader_group::{LastRefusal, Notice, PartFault, Refusal, Refused, Sender};
use std::alloc::Global;

/// What a reader's parts couldn't be read for, as C sees it.
#[repr(C)]
#[derive(Clone, Copy)]
pub struct FaultWords {
    /// How many parts couldn't be read since the subscriber was opened.
    pub bad: u64,
    /// Why the last one couldn't, by its number; 0 where each could.
    pub fault: u32,
    /// What it got: an index, a count, bytes, or where bytes begin; else 0.
    pub got: u32,
    /// Of how many bytes, where that is told; else 0.
    pub of: u32,
    /// The field whose value has the fault, by its index, and 1 where there is one; else both are 0. So it is with the pair below.
    pub field: u32,
    pub has_field: u32,
    /// The type byte of its value.
    pub kind: u32,
    pub has_kind: u32,
}

/// How many messages a reader passed over since the subscriber was opened, as C sees it.
#[repr(C)]
#[derive(Clone, Copy)]
pub struct PassedWords {
    /// Those of another major version of the data set.
    pub other_major: u64,
    /// Those with no number, where the reader goes by numbers, and delta frames, where it goes by none.
    pub unnumbered: u64,
    /// Those that weren't newer than the last record.
    pub older: u64,
    /// The other major version of the last one; 0 where there was none.
    pub major: u32,
    /// 1 where there was such a one, else 0.
    pub has_major: u32,
}

/// What a read group refused since the subscriber was opened, as C sees it. What the last datagram's header told of its sender stands
/// where the refusal is that it isn't one of the read group's.
#[repr(C)]
#[derive(Clone, Copy)]
pub struct RefusedWords {
    /// How many datagrams were refused.
    pub count: u64,
    /// The PublisherId, where it is a number; else 0.
    pub publisher: u64,
    /// Why the last one was refused, by its number; 0 where none was.
    pub status: u32,
    /// The built-in type of the PublisherId; 0 where the header told none.
    pub publisher_type: u32,
    /// The WriterGroupId, and 1 where the header told it; else both are 0. So it is with the pairs below.
    pub group: u32,
    pub has_group: u32,
    /// The GroupVersion.
    pub version: u32,
    pub has_version: u32,
    /// The NetworkMessageNumber.
    pub number: u32,
    pub has_number: u32,
    /// The SecurityTokenId, of a token that is unknown or old.
    pub token: u32,
    pub has_token: u32,
}

/// Why the last part of a reader that couldn't be read couldn't.
#[unsafe(no_mangle)]
pub extern "C" fn uapubsub_reader_last_fault(
    alloc: Global,
    handle: &mut Handle,
    group: u32,
    reader: u32,
    fault: &mut FaultWords,
) -> u32
    requires { IsReady handle.old }
    ensures { Asks (OfSubscriber (Stays (TellsFault group reader)))
        handle.old result fault.old fault.new handle.new }
{
    let answer = handle.ask_subscriber(alloc, |subscriber| fault_in(subscriber, group, reader));
    tell(answer, fault)
}

fn fault_in(subscriber: &Subscriber, group: u32, reader: u32) -> Result<FaultWords, Status>
    requires { IsSubscriber subscriber.now }
    ensures { TellsFault group reader subscriber.now result }
{
    let Some((group, reader)) = two_indexes(group, reader) else {
        return Err(Status::Index);
    };
    match subscriber.notice(group, reader) {
        Some(notice) => Ok(fault_words(&notice)),
        None => Err(Status::Index),
    }
}

fn fault_words(notice: &Notice) -> FaultWords
    ensures { result ≡ fault_words notice.now }
{
    let field = notice.field.unwrap_or(NO_FIELD);
    FaultWords {
        bad: notice.bad,
        fault: number_if(&notice.fault),
        got: got_if(&notice.fault),
        of: of_if(&notice.fault),
        field: u32::from(field.index),
        has_field: u32::from(notice.field.is_some()),
        kind: u32::from(field.type_byte.unwrap_or(0)),
        has_kind: u32::from(field.type_byte.is_some()),
    }
}

/// What is told where no field is at fault.
const NO_FIELD: FieldFault = FieldFault {
    index: 0,
    type_byte: None,
};

fn number_if(fault: &Option<PartFault>) -> u32
    ensures { result ≡ number_if fault.now }
{
    match fault {
        None => 0,
        Some(fault) => fault_number(fault),
    }
}

fn got_if(fault: &Option<PartFault>) -> u32
    ensures { result ≡ got_if fault.now }
{
    match fault {
        None => 0,
        Some(fault) => fault_got(fault),
    }
}

fn of_if(fault: &Option<PartFault>) -> u32
    ensures { result ≡ of_if fault.now }
{
    match fault {
        None => 0,
        Some(fault) => fault_of(fault),
    }
}

/// The number by which C sees a fault.
fn fault_number(fault: &PartFault) -> u32
    ensures { result ≡ fault_number fault.now }
{
    match fault {
        PartFault::Frame(FrameFault::Short) => 1,
        PartFault::Frame(FrameFault::BadEncoding) => 2,
        PartFault::Frame(FrameFault::KindOut) => 3,
        PartFault::Frame(FrameFault::BadValue) => 4,
        PartFault::Frame(FrameFault::BadIndex { .. }) => 5,
        PartFault::Frame(FrameFault::WrongCount { .. }) => 6,
        PartFault::Frame(FrameFault::Trailing) => 7,
        PartFault::Frame(FrameFault::NotValid) => 8,
        PartFault::Frame(FrameFault::EventOut) => 9,
        PartFault::Frame(FrameFault::ReservedBits) => 10,
        PartFault::Chunk(ChunkFault::Short) => 20,
        PartFault::Chunk(ChunkFault::BadLength) => 21,
        PartFault::TooLong { .. } => 22,
        PartFault::BadRange { .. } => 23,
        PartFault::Differs { .. } => 24,
        PartFault::Missing => 30,
    }
}

/// What a fault got: an index, a count, bytes, or where bytes begin.
fn fault_got(fault: &PartFault) -> u32
    ensures { result ≡ fault_got fault.now }
{
    match fault {
        PartFault::Frame(FrameFault::BadIndex { got }) => u32::from(*got),
        PartFault::Frame(FrameFault::WrongCount { got }) => u32::from(*got),
        PartFault::TooLong { total } => *total,
        PartFault::BadRange { offset, .. } => *offset,
        PartFault::Differs { now, .. } => *now,
        _ => 0,
    }
}

/// Of how many bytes, where a fault tells that.
fn fault_of(fault: &PartFault) -> u32
    ensures { result ≡ fault_of fault.now }
{
    match fault {
        PartFault::BadRange { total, .. } => *total,
        PartFault::Differs { first, .. } => *first,
        _ => 0,
    }
}

/// How many messages a reader passed over, by cause.
#[unsafe(no_mangle)]
pub extern "C" fn uapubsub_reader_passed(
    alloc: Global,
    handle: &mut Handle,
    group: u32,
    reader: u32,
    passed: &mut PassedWords,
) -> u32
    requires { IsReady handle.old }
    ensures { Asks (OfSubscriber (Stays (TellsPassed group reader)))
        handle.old result passed.old passed.new handle.new }
{
    let answer = handle.ask_subscriber(alloc, |subscriber| passed_in(subscriber, group, reader));
    tell(answer, passed)
}

fn passed_in(subscriber: &Subscriber, group: u32, reader: u32) -> Result<PassedWords, Status>
    requires { IsSubscriber subscriber.now }
    ensures { TellsPassed group reader subscriber.now result }
{
    let Some((group, reader)) = two_indexes(group, reader) else {
        return Err(Status::Index);
    };
    let Some(holder) = subscriber.reader(group, reader) else {
        return Err(Status::Index);
    };
    match subscriber.notice(group, reader) {
        Some(notice) => Ok(passed_words(&holder.passed(), &notice)),
        None => Err(Status::Index),
    }
}

fn passed_words(passed: &Passed, notice: &Notice) -> PassedWords
    ensures { result ≡ passed_words passed.now notice.now }
{
    PassedWords {
        other_major: passed.wrong_major,
        unnumbered: passed.unnumbered,
        older: passed.older,
        major: notice.major.unwrap_or(0),
        has_major: u32::from(notice.major.is_some()),
    }
}

/// What a read group refused, and whose the last datagram was.
#[unsafe(no_mangle)]
pub extern "C" fn uapubsub_read_group_refused(
    alloc: Global,
    handle: &mut Handle,
    group: u32,
    refused: &mut RefusedWords,
) -> u32
    requires { IsReady handle.old }
    ensures { Asks (OfSubscriber (Stays (TellsRefused group)))
        handle.old result refused.old refused.new handle.new }
{
    let answer = handle.ask_subscriber(alloc, |subscriber| refused_in(subscriber, group));
    tell(answer, refused)
}

fn refused_in(subscriber: &Subscriber, group: u32) -> Result<RefusedWords, Status>
    requires { IsSubscriber subscriber.now }
    ensures { TellsRefused group subscriber.now result }
{
    let Some(group) = one_index(group) else {
        return Err(Status::Index);
    };
    match subscriber.refused(group) {
        Some(refused) => Ok(refused_words(refused)),
        None => Err(Status::Index),
    }
}

fn refused_words(refused: &Refused) -> RefusedWords
    ensures { result ≡ refused_words refused.now }
{
    match &refused.last {
        None => RefusedWords {
            count: refused.count,
            publisher: 0,
            status: 0,
            publisher_type: 0,
            group: 0,
            has_group: 0,
            version: 0,
            has_version: 0,
            number: 0,
            has_number: 0,
            token: 0,
            has_token: 0,
        },
        Some(last) => last_words(refused.count, last),
    }
}

fn last_words(count: u64, last: &LastRefusal) -> RefusedWords
    ensures { result ≡ last_words count last.now }
{
    let token = token_in(&last.refusal);
    let sender = sender_in(last);
    RefusedWords {
        count,
        publisher: word_in(&sender.publisher),
        status: refusal_number(&last.refusal),
        publisher_type: type_in(&sender.publisher),
        group: u32::from(sender.group.unwrap_or(0)),
        has_group: u32::from(sender.group.is_some()),
        version: sender.version.unwrap_or(0),
        has_version: u32::from(sender.version.is_some()),
        number: u32::from(sender.number.unwrap_or(0)),
        has_number: u32::from(sender.number.is_some()),
        token: token.unwrap_or(0),
        has_token: u32::from(token.is_some()),
    }
}

/// What the header told of the sender: nothing where it isn't kept.
fn sender_in(last: &LastRefusal) -> Sender
    ensures { result ≡ sender_in last.now }
{
    match &last.sender {
        Some(sender) => *sender,
        None => Sender {
            publisher: None,
            group: None,
            version: None,
            number: None,
            class_id: None,
        },
    }
}

/// The token of a refusal that is for its token.
fn token_in(refusal: &Refusal) -> Option<u32>
    ensures { result ≡ token_in refusal.now }
{
    match refusal {
        Refusal::Guard(OpenFault::UnknownToken { got }) => Some(*got),
        Refusal::Guard(OpenFault::OldToken { got, .. }) => Some(*got),
        _ => None,
    }
}

/// The built-in type of a PublisherId (OPC 10000-14 7.2.4.4).
fn type_in(publisher: &Option<Publisher>) -> u32
    ensures { result ≡ type_in publisher.now }
{
    match publisher {
        None => 0,
        Some(Publisher::U8(_)) => 3,
        Some(Publisher::U16(_)) => 5,
        Some(Publisher::U32(_)) => 7,
        Some(Publisher::U64(_)) => 9,
        Some(Publisher::Text(_)) => 12,
    }
}

/// A PublisherId that is a number; else 0.
fn word_in(publisher: &Option<Publisher>) -> u64
    ensures { result ≡ word_in publisher.now }
{
    match publisher {
        Some(Publisher::U8(id)) => u64::from(*id),
        Some(Publisher::U16(id)) => u64::from(*id),
        Some(Publisher::U32(id)) => u64::from(*id),
        Some(Publisher::U64(id)) => *id,
        _ => 0,
    }
}

/// The read group takes datagrams of this NetworkMessageNumber alone from now on (OPC 10000-14 7.2.4.4.3), of any where it is 0.
#[unsafe(no_mangle)]
pub extern "C" fn uapubsub_read_group_only(
    alloc: Global,
    handle: &mut Handle,
    group: u32,
    number: u16,
) -> u32
    requires { IsReady handle.old }
    ensures { Calls (OfSubscriber (TakesOnly group number)) handle.old result handle.new }
{
    number_of(handle.subscriber(alloc, |subscriber| take_only(subscriber, group, number)))
}

fn take_only(subscriber: &mut Subscriber, group: u32, number: u16) -> Result<(), Status>
    requires { IsSubscriber subscriber.old }
    ensures subscriber { IsSubscriber subscriber.new }
    ensures only { TakesOnly group number subscriber.old result subscriber.new }
{
    let Some(group) = one_index(group) else {
        return Err(Status::Index);
    };
    if subscriber.set_network_message_number(group, number) {
        Ok(())
    } else {
        Err(Status::Index)
    }
}
