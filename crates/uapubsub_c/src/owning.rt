//! What a publisher has itself: its rows, its next moment, and its groups.
ghost use Rattle.std.specs.Prelude.{◌≡◌};
ghost use Rattle.device.specs.Sides.{IsPublisher};
ghost use Rattle.uapubsub_c.specs.Answers.{Asks, Calls, OfPublisher, Stays};
ghost use Rattle.uapubsub_c.specs.Getting.{SeesGuid};
ghost use Rattle.uapubsub_c.specs.Handles.{IsReady};
ghost use Rattle.uapubsub_c.specs.Laying.{LaysBlob, LaysText};
ghost use Rattle.uapubsub_c.specs.Owning.{GetsOwn, TellsDue, TellsFrom, TellsOwn, TellsOwnStatus, TellsOwnWord, TellsTurn};

use crate::getting::{lay_blob, lay_text, tell_guid};
use crate::guid::GuidBytes;
use crate::handle::Handle;
use crate::indexes::{one_index, two_indexes};
use crate::kinds::kind_numbered;
use crate::status::{Status, number_of, tell};
use device::Publisher;
use std::alloc::Global;
use ua_values::Value;

/// The first moment from `now` on, in milliseconds, at which the publisher has something to do: a group is due that may have its turn,
/// or a key's moment comes. It is `now` where a datagram waits.
#[unsafe(no_mangle)]
pub extern "C" fn uapubsub_publisher_due(
    alloc: Global,
    handle: &mut Handle,
    now: u64,
    moment: &mut u64,
) -> u32
    requires { IsReady handle.old }
    ensures { Asks (OfPublisher (Stays (TellsDue now)))
        handle.old result moment.old moment.new handle.new }
{
    let answer = handle.ask_publisher(alloc, |publisher| due_of(publisher, now));
    tell(answer, moment)
}

fn due_of(publisher: &Publisher, now: u64) -> Result<u64, Status>
    requires { IsPublisher publisher.now }
    ensures { TellsDue now publisher.now result }
{
    match publisher.due(now) {
        Some(moment) => Ok(moment),
        None => Err(Status::Nothing),
    }
}

/// The index of the group whose turn made the datagram that `uapubsub_publisher_next` gave last.
#[unsafe(no_mangle)]
pub extern "C" fn uapubsub_publisher_group(
    alloc: Global,
    handle: &mut Handle,
    group: &mut u32,
) -> u32
    requires { IsReady handle.old }
    ensures { Asks (OfPublisher (Stays TellsFrom))
        handle.old result group.old group.new handle.new }
{
    let answer = handle.ask_publisher(alloc, |publisher| from_of(publisher));
    tell(answer, group)
}

fn from_of(publisher: &Publisher) -> Result<u32, Status>
    requires { IsPublisher publisher.now }
    ensures { TellsFrom publisher.now result }
{
    if publisher.made == 0 {
        return Err(Status::Nothing);
    }
    Ok(u32::from(publisher.from))
}

/// Whether the group with this index may have a turn.
#[unsafe(no_mangle)]
pub extern "C" fn uapubsub_group_may_turn(alloc: Global, handle: &mut Handle, group: u32) -> u32
    requires { IsReady handle.old }
    ensures { Calls (OfPublisher (Stays (TellsTurn group))) handle.old result handle.new }
{
    number_of(handle.ask_publisher(alloc, |publisher| may_turn(publisher, group)))
}

fn may_turn(publisher: &Publisher, group: u32) -> Result<(), Status>
    requires { IsPublisher publisher.now }
    ensures { TellsTurn group publisher.now result }
{
    let Some(group) = one_index(group) else {
        return Err(Status::Index);
    };
    match publisher.is_spent(group) {
        None => Err(Status::Index),
        Some(true) => Err(Status::Spent),
        Some(false) => Ok(()),
    }
}

/// Gets the word of a scalar field of the publisher's own row, as it was set last.
#[unsafe(no_mangle)]
pub extern "C" fn uapubsub_own_word(
    alloc: Global,
    handle: &mut Handle,
    set: u32,
    field: u32,
    kind: u32,
    word: &mut u64,
) -> u32
    requires { IsReady handle.old }
    ensures { Asks (OfPublisher (Stays (TellsOwnWord set field kind)))
        handle.old result word.old word.new handle.new }
{
    let answer = handle.ask_publisher(alloc, |publisher| word_of(publisher, set, field, kind));
    tell(answer, word)
}

fn word_of(publisher: &Publisher, set: u32, field: u32, kind: u32) -> Result<u64, Status>
    requires { IsPublisher publisher.now }
    ensures { TellsOwnWord set field kind publisher.now result }
{
    let Some(kind) = kind_numbered(kind) else {
        return Err(Status::NoKind);
    };
    let Some((set, field)) = two_indexes(set, field) else {
        return Err(Status::Index);
    };
    if !publisher.has_field(set, field) {
        return Err(Status::Index);
    }
    match publisher.word(set, field, kind) {
        Some(word) => Ok(word),
        None => Err(Status::Misfit),
    }
}

/// Gets a String of the publisher's own row, as `uapubsub_get_text` does of a reader's.
#[unsafe(no_mangle)]
pub extern "C" fn uapubsub_own_text(
    alloc: Global,
    handle: &mut Handle,
    set: u32,
    field: u32,
    buffer: &mut [u8],
    count: &mut usize,
) -> u32
    requires { IsReady handle.old }
    ensures { GetsOwn set field handle.old
        (λ answer. LaysText answer result buffer.old buffer.new count.old count.new) handle.new }
{
    let answer = handle.ask_publisher(alloc, |publisher| value_of(publisher, set, field));
    lay_text(&answer, buffer, count)
}

/// Gets a ByteString of the publisher's own row.
#[unsafe(no_mangle)]
pub extern "C" fn uapubsub_own_bytes(
    alloc: Global,
    handle: &mut Handle,
    set: u32,
    field: u32,
    buffer: &mut [u8],
    count: &mut usize,
) -> u32
    requires { IsReady handle.old }
    ensures { GetsOwn set field handle.old
        (λ answer. LaysBlob answer result buffer.old buffer.new count.old count.new) handle.new }
{
    let answer = handle.ask_publisher(alloc, |publisher| value_of(publisher, set, field));
    lay_blob(&answer, buffer, count)
}

/// Gets a Guid of the publisher's own row.
#[unsafe(no_mangle)]
pub extern "C" fn uapubsub_own_guid(
    alloc: Global,
    handle: &mut Handle,
    set: u32,
    field: u32,
    guid: &mut GuidBytes,
) -> u32
    requires { IsReady handle.old }
    ensures { GetsOwn set field handle.old
        (λ answer. SeesGuid answer result guid.old guid.new) handle.new }
{
    let answer = handle.ask_publisher(alloc, |publisher| value_of(publisher, set, field));
    tell_guid(&answer, guid)
}

/// Gets the status of a field of the publisher's own row.
#[unsafe(no_mangle)]
pub extern "C" fn uapubsub_own_field_status(
    alloc: Global,
    handle: &mut Handle,
    set: u32,
    field: u32,
    status: &mut u32,
) -> u32
    requires { IsReady handle.old }
    ensures { Asks (OfPublisher (Stays (TellsOwnStatus set field)))
        handle.old result status.old status.new handle.new }
{
    let answer = handle.ask_publisher(alloc, |publisher| status_of(publisher, set, field));
    tell(answer, status)
}

fn status_of(publisher: &Publisher, set: u32, field: u32) -> Result<u32, Status>
    requires { IsPublisher publisher.now }
    ensures { TellsOwnStatus set field publisher.now result }
{
    match value_of(publisher, set, field) {
        Ok((_, status)) => Ok(status),
        Err(status) => Err(status),
    }
}

/// The value and the status of a field of the publisher's own row.
fn value_of(publisher: &Publisher, set: u32, field: u32) -> Result<(Value, u32), Status>
    requires { IsPublisher publisher.now }
    ensures { TellsOwn set field publisher.now result }
{
    let Some((set, field)) = two_indexes(set, field) else {
        return Err(Status::Index);
    };
    match publisher.field(set, field) {
        Some(told) => Ok(told),
        None => Err(Status::Index),
    }
}
