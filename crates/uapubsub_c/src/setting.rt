//! Setting fields.
ghost use Rattle.std.specs.Prelude.{◌≡◌};
ghost use Rattle.device.specs.Sides.{IsPublisher};
ghost use Rattle.uapubsub_c.specs.Answers.{Calls, OfPublisher};
ghost use Rattle.uapubsub_c.specs.Handles.{IsReady};
ghost use Rattle.uapubsub_c.specs.Setting.{SetsBytes, SetsStatus, SetsText, SetsValue, SetsWord};

use crate::guid::GuidBytes;
use crate::handle::Handle;
use crate::indexes::two_indexes;
use crate::kinds::kind_numbered;
use crate::status::{Status, number_of};
use device::Publisher;
use std::alloc::Global;
use ua_values::{Blob, Text, Value};

/// The status of a value that is Good.
const GOOD: u32 = 0;

/// Sets a scalar field to the value with this word: a Boolean is 0 or 1, a signed number the two's complement of its own width, a Float
/// or a Double its bits. The kind is the number of the built-in type (OPC 10000-6 section 5.1.2).
#[unsafe(no_mangle)]
pub extern "C" fn uapubsub_set_word(
    alloc: Global,
    handle: &mut Handle,
    set: u32,
    field: u32,
    kind: u32,
    word: u64,
) -> u32
    requires { IsReady handle.old }
    ensures { Calls (OfPublisher (SetsWord set field kind word)) handle.old result handle.new }
{
    number_of(handle.publisher(alloc, |publisher| {
        set_word(publisher, set, field, kind, word)
    }))
}

fn set_word(
    publisher: &mut Publisher,
    set: u32,
    field: u32,
    kind: u32,
    word: u64,
) -> Result<(), Status>
    requires { IsPublisher publisher.old }
    ensures publisher { IsPublisher publisher.new }
    ensures sets { SetsWord set field kind word publisher.old result publisher.new }
{
    let Some(kind) = kind_numbered(kind) else {
        return Err(Status::NoKind);
    };
    let Some((set, field)) = two_indexes(set, field) else {
        return Err(Status::Index);
    };
    if !publisher.has_field(set, field) {
        return Err(Status::Index);
    }
    if publisher.set_word(set, field, kind, word) {
        Ok(())
    } else {
        Err(Status::Misfit)
    }
}

/// Sets a String, Good.
#[unsafe(no_mangle)]
pub extern "C" fn uapubsub_set_text(
    alloc: Global,
    handle: &mut Handle,
    set: u32,
    field: u32,
    text: &[u8],
) -> u32
    requires { IsReady handle.old }
    ensures { Calls (OfPublisher (SetsText set field text.now)) handle.old result handle.new }
{
    number_of(handle.publisher(alloc, |publisher| set_text(publisher, set, field, text)))
}

fn set_text(publisher: &mut Publisher, set: u32, field: u32, text: &[u8]) -> Result<(), Status>
    requires { IsPublisher publisher.old }
    ensures publisher { IsPublisher publisher.new }
    ensures sets { SetsText set field text.now publisher.old result publisher.new }
{
    match Text::from_bytes(text) {
        Ok(text) => set_value(publisher, set, field, &Value::String(text)),
        Err(_) => Err(Status::BadText),
    }
}

/// Sets a ByteString, Good.
#[unsafe(no_mangle)]
pub extern "C" fn uapubsub_set_bytes(
    alloc: Global,
    handle: &mut Handle,
    set: u32,
    field: u32,
    bytes: &[u8],
) -> u32
    requires { IsReady handle.old }
    ensures { Calls (OfPublisher (SetsBytes set field bytes.now)) handle.old result handle.new }
{
    number_of(handle.publisher(alloc, |publisher| {
        set_bytes(publisher, set, field, bytes)
    }))
}

fn set_bytes(publisher: &mut Publisher, set: u32, field: u32, bytes: &[u8]) -> Result<(), Status>
    requires { IsPublisher publisher.old }
    ensures publisher { IsPublisher publisher.new }
    ensures sets { SetsBytes set field bytes.now publisher.old result publisher.new }
{
    match Blob::from_bytes(bytes) {
        Ok(blob) => set_value(publisher, set, field, &Value::ByteString(blob)),
        Err(_) => Err(Status::BadText),
    }
}

/// Sets a Guid, Good.
#[unsafe(no_mangle)]
pub extern "C" fn uapubsub_set_guid(
    alloc: Global,
    handle: &mut Handle,
    set: u32,
    field: u32,
    guid: &GuidBytes,
) -> u32
    requires { IsReady handle.old }
    ensures { Calls (OfPublisher (SetsValue set field (Value.Guid guid.now.bytes)))
        handle.old result handle.new }
{
    let value = Value::Guid(guid.bytes);
    number_of(handle.publisher(alloc, |publisher| {
        set_value(publisher, set, field, &value)
    }))
}

/// Sets a field to this value, Good.
fn set_value(publisher: &mut Publisher, set: u32, field: u32, value: &Value) -> Result<(), Status>
    requires { IsPublisher publisher.old }
    ensures publisher { IsPublisher publisher.new }
    ensures sets { SetsValue set field value.now publisher.old result publisher.new }
{
    let Some((set, field)) = two_indexes(set, field) else {
        return Err(Status::Index);
    };
    if !publisher.has_field(set, field) {
        return Err(Status::Index);
    }
    if publisher.set(set, field, value, GOOD) {
        Ok(())
    } else {
        Err(Status::Misfit)
    }
}

/// Sets the status of a field, and leaves its value. Where the data set has no quality a field has none but Good, which is 0.
#[unsafe(no_mangle)]
pub extern "C" fn uapubsub_set_field_status(
    alloc: Global,
    handle: &mut Handle,
    set: u32,
    field: u32,
    status: u32,
) -> u32
    requires { IsReady handle.old }
    ensures { Calls (OfPublisher (SetsStatus set field status)) handle.old result handle.new }
{
    number_of(handle.publisher(alloc, |publisher| {
        set_status(publisher, set, field, status)
    }))
}

fn set_status(publisher: &mut Publisher, set: u32, field: u32, status: u32) -> Result<(), Status>
    requires { IsPublisher publisher.old }
    ensures publisher { IsPublisher publisher.new }
    ensures sets { SetsStatus set field status publisher.old result publisher.new }
{
    let Some((set, field)) = two_indexes(set, field) else {
        return Err(Status::Index);
    };
    if !publisher.has_field(set, field) {
        return Err(Status::Index);
    }
    if publisher.set_status(set, field, status) {
        Ok(())
    } else {
        Err(Status::Misfit)
    }
}
