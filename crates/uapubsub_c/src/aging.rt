//! How old the rows of readers are, and when a timeout is next.
ghost use Rattle.std.specs.Prelude.{◌≡◌};
ghost use Rattle.device.specs.Sides.{IsSubscriber};
ghost use Rattle.uapubsub_c.specs.Aging.{TellsAge, TellsFresh, TellsTimeout};
ghost use Rattle.uapubsub_c.specs.Answers.{Asks, Calls, OfSubscriber, Stays};
ghost use Rattle.uapubsub_c.specs.Handles.{IsReady};

use crate::handle::Handle;
use crate::indexes::two_indexes;
use crate::status::{Status, number_of, tell};
use device::Subscriber;
use std::alloc::Global;

/// How many milliseconds before `now` the row that a reader holds was confirmed: by the last message that it took with none missing
/// before it.
#[unsafe(no_mangle)]
pub extern "C" fn uapubsub_reader_age(
    alloc: Global,
    handle: &mut Handle,
    group: u32,
    reader: u32,
    now: u64,
    age: &mut u64,
) -> u32
    requires { IsReady handle.old }
    ensures { Asks (OfSubscriber (Stays (TellsAge group reader now)))
        handle.old result age.old age.new handle.new }
{
    let answer = handle.ask_subscriber(alloc, |subscriber| {
        age_of(subscriber, group, reader, now)
    });
    tell(answer, age)
}

fn age_of(subscriber: &Subscriber, group: u32, reader: u32, now: u64) -> Result<u64, Status>
    requires { IsSubscriber subscriber.now }
    ensures { TellsAge group reader now subscriber.now result }
{
    let Some((group, reader)) = two_indexes(group, reader) else {
        return Err(Status::Index);
    };
    let Some(_) = subscriber.reader(group, reader) else {
        return Err(Status::Index);
    };
    match subscriber.age(group, reader, now) {
        Some(age) => Ok(age),
        None => Err(Status::Nothing),
    }
}

/// Whether a reader holds a row that was confirmed at most `bound` milliseconds before `now`.
#[unsafe(no_mangle)]
pub extern "C" fn uapubsub_reader_is_fresh(
    alloc: Global,
    handle: &mut Handle,
    group: u32,
    reader: u32,
    now: u64,
    bound: u64,
) -> u32
    requires { IsReady handle.old }
    ensures { Calls (OfSubscriber (Stays (TellsFresh group reader now bound)))
        handle.old result handle.new }
{
    number_of(handle.ask_subscriber(alloc, |subscriber| {
        is_fresh(subscriber, group, reader, now, bound)
    }))
}

fn is_fresh(
    subscriber: &Subscriber,
    group: u32,
    reader: u32,
    now: u64,
    bound: u64,
) -> Result<(), Status>
    requires { IsSubscriber subscriber.now }
    ensures { TellsFresh group reader now bound subscriber.now result }
{
    let Some((group, reader)) = two_indexes(group, reader) else {
        return Err(Status::Index);
    };
    let Some(_) = subscriber.reader(group, reader) else {
        return Err(Status::Index);
    };
    if subscriber.is_fresh(group, reader, now, bound) {
        return Ok(());
    }
    match subscriber.age(group, reader, now) {
        Some(_) => Err(Status::Stale),
        None => Err(Status::Nothing),
    }
}

/// The first moment from `now` on, in milliseconds, at which a reader's timeout passes: `uapubsub_subscriber_expire` has to be called
/// then.
#[unsafe(no_mangle)]
pub extern "C" fn uapubsub_subscriber_due(
    alloc: Global,
    handle: &mut Handle,
    now: u64,
    moment: &mut u64,
) -> u32
    requires { IsReady handle.old }
    ensures { Asks (OfSubscriber (Stays (TellsTimeout now)))
        handle.old result moment.old moment.new handle.new }
{
    let answer = handle.ask_subscriber(alloc, |subscriber| timeout_of(subscriber, now));
    tell(answer, moment)
}

fn timeout_of(subscriber: &Subscriber, now: u64) -> Result<u64, Status>
    requires { IsSubscriber subscriber.now }
    ensures { TellsTimeout now subscriber.now result }
{
    match subscriber.due(now) {
        Some(moment) => Ok(moment),
        None => Err(Status::Nothing),
    }
}
