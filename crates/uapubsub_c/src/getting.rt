//! Getting fields.
ghost use Rattle.std.specs.Prelude.{◌≡◌};
ghost use Rattle.device.specs.Sides.{IsSubscriber};
ghost use Rattle.uapubsub_c.specs.Answers.{Asks, OfSubscriber, Stays};
ghost use Rattle.uapubsub_c.specs.Getting.{GetsValue, SeesGuid, TellsStatus, TellsValue, TellsWord};
ghost use Rattle.uapubsub_c.specs.Handles.{IsReady};
ghost use Rattle.uapubsub_c.specs.Laying.{LaysBlob, LaysText};

use crate::guid::GuidBytes;
use crate::handle::Handle;
use crate::indexes::three_indexes;
use crate::kinds::kind_numbered;
use crate::laying::lay_whole;
use crate::status::{Status, tell};
use device::{NoValue, Subscriber};
use std::alloc::Global;
use ua_values::Value;

/// Gets the word of a scalar field of the row that a reader holds, as `uapubsub_set_word` takes it.
#[unsafe(no_mangle)]
pub extern "C" fn uapubsub_get_word(
    alloc: Global,
    handle: &mut Handle,
    group: u32,
    reader: u32,
    field: u32,
    kind: u32,
    word: &mut u64,
) -> u32
    requires { IsReady handle.old }
    ensures { Asks (OfSubscriber (Stays (TellsWord group reader field kind)))
        handle.old result word.old word.new handle.new }
{
    let answer = handle.ask_subscriber(alloc, |subscriber| {
        word_of(subscriber, group, reader, field, kind)
    });
    tell(answer, word)
}

fn word_of(
    subscriber: &Subscriber,
    group: u32,
    reader: u32,
    field: u32,
    kind: u32,
) -> Result<u64, Status>
    requires { IsSubscriber subscriber.now }
    ensures { TellsWord group reader field kind subscriber.now result }
{
    let Some(kind) = kind_numbered(kind) else {
        return Err(Status::NoKind);
    };
    let Some((group, reader, field)) = three_indexes(group, reader, field) else {
        return Err(Status::Index);
    };
    match subscriber.word(group, reader, field, kind) {
        Ok(word) => Ok(word),
        Err(NoValue::NoField) => Err(Status::Index),
        Err(NoValue::NoRow) => Err(Status::Nothing),
        Err(NoValue::Misfit) => Err(Status::Misfit),
    }
}

/// Gets a String of the row that a reader holds: its bytes are laid at the front of the buffer, and `count` is how many there are.
/// Where the buffer is shorter than that nothing is laid.
#[unsafe(no_mangle)]
pub extern "C" fn uapubsub_get_text(
    alloc: Global,
    handle: &mut Handle,
    group: u32,
    reader: u32,
    field: u32,
    buffer: &mut [u8],
    count: &mut usize,
) -> u32
    requires { IsReady handle.old }
    ensures { GetsValue group reader field handle.old
        (λ answer. LaysText answer result buffer.old buffer.new count.old count.new) handle.new }
{
    let answer = handle.ask_subscriber(alloc, |subscriber| {
        value_of(subscriber, group, reader, field)
    });
    lay_text(&answer, buffer, count)
}

/// Lays the bytes of an answer that is a String.
pub fn lay_text(answer: &Result<(Value, u32), Status>, buffer: &mut [u8], count: &mut usize) -> u32
    ensures { LaysText answer.now result buffer.old buffer.new count.old count.new }
{
    match answer {
        Ok((Value::String(text), _)) => lay_whole(text.as_bytes(), buffer, count),
        Ok(_) => Status::Misfit.number(),
        Err(status) => status.number(),
    }
}

/// Gets a ByteString of the row that a reader holds, as `uapubsub_get_text` does.
#[unsafe(no_mangle)]
pub extern "C" fn uapubsub_get_bytes(
    alloc: Global,
    handle: &mut Handle,
    group: u32,
    reader: u32,
    field: u32,
    buffer: &mut [u8],
    count: &mut usize,
) -> u32
    requires { IsReady handle.old }
    ensures { GetsValue group reader field handle.old
        (λ answer. LaysBlob answer result buffer.old buffer.new count.old count.new) handle.new }
{
    let answer = handle.ask_subscriber(alloc, |subscriber| {
        value_of(subscriber, group, reader, field)
    });
    lay_blob(&answer, buffer, count)
}

/// Lays the bytes of an answer that is a ByteString.
pub fn lay_blob(answer: &Result<(Value, u32), Status>, buffer: &mut [u8], count: &mut usize) -> u32
    ensures { LaysBlob answer.now result buffer.old buffer.new count.old count.new }
{
    match answer {
        Ok((Value::ByteString(blob), _)) => lay_whole(blob.as_bytes(), buffer, count),
        Ok(_) => Status::Misfit.number(),
        Err(status) => status.number(),
    }
}

/// Gets a Guid of the row that a reader holds.
#[unsafe(no_mangle)]
pub extern "C" fn uapubsub_get_guid(
    alloc: Global,
    handle: &mut Handle,
    group: u32,
    reader: u32,
    field: u32,
    guid: &mut GuidBytes,
) -> u32
    requires { IsReady handle.old }
    ensures { GetsValue group reader field handle.old
        (λ answer. SeesGuid answer result guid.old guid.new) handle.new }
{
    let answer = handle.ask_subscriber(alloc, |subscriber| {
        value_of(subscriber, group, reader, field)
    });
    tell_guid(&answer, guid)
}

/// Tells an answer that is a Guid.
pub fn tell_guid(answer: &Result<(Value, u32), Status>, guid: &mut GuidBytes) -> u32
    ensures { SeesGuid answer.now result guid.old guid.new }
{
    match answer {
        Ok((Value::Guid(bytes), _)) => {
            guid.bytes = *bytes;
            0
        }
        Ok(_) => Status::Misfit.number(),
        Err(status) => status.number(),
    }
}

/// Gets the status of a field of the row that a reader holds (OPC 10000-4, StatusCode): Good where its data set has no quality.
#[unsafe(no_mangle)]
pub extern "C" fn uapubsub_get_field_status(
    alloc: Global,
    handle: &mut Handle,
    group: u32,
    reader: u32,
    field: u32,
    status: &mut u32,
) -> u32
    requires { IsReady handle.old }
    ensures { Asks (OfSubscriber (Stays (TellsStatus group reader field)))
        handle.old result status.old status.new handle.new }
{
    let answer = handle.ask_subscriber(alloc, |subscriber| {
        status_of(subscriber, group, reader, field)
    });
    tell(answer, status)
}

fn status_of(subscriber: &Subscriber, group: u32, reader: u32, field: u32) -> Result<u32, Status>
    requires { IsSubscriber subscriber.now }
    ensures { TellsStatus group reader field subscriber.now result }
{
    match value_of(subscriber, group, reader, field) {
        Ok((_, status)) => Ok(status),
        Err(status) => Err(status),
    }
}

/// The value and the status of a field of the row that a reader holds.
fn value_of(
    subscriber: &Subscriber,
    group: u32,
    reader: u32,
    field: u32,
) -> Result<(Value, u32), Status>
    requires { IsSubscriber subscriber.now }
    ensures { TellsValue group reader field subscriber.now result }
{
    let Some((group, reader, field)) = three_indexes(group, reader, field) else {
        return Err(Status::Index);
    };
    match subscriber.field(group, reader, field) {
        Ok(told) => Ok(told),
        Err(NoValue::NoField) => Err(Status::Index),
        Err(NoValue::NoRow) => Err(Status::Nothing),
        Err(NoValue::Misfit) => Err(Status::Misfit),
    }
}
