//! Writers and readers that are switched on and off.
ghost use Rattle.std.specs.Prelude.{◌≡◌, true, false};
ghost use Rattle.device.specs.Sides.{IsPublisher, IsSubscriber};
ghost use Rattle.uapubsub_c.specs.Answers.{Calls, OfPublisher, OfSubscriber};
ghost use Rattle.uapubsub_c.specs.Handles.{IsReady};
ghost use Rattle.uapubsub_c.specs.Switching.{SwitchesReader, SwitchesWriter};

use crate::handle::Handle;
use crate::indexes::two_indexes;
use crate::status::{Status, number_of};
use device::{Publisher, Subscriber};
use std::alloc::Global;

/// The writer with this index in the group with this index sends from now on, a key frame first (OPC 10000-14 6.2.1, Enable).
#[unsafe(no_mangle)]
pub extern "C" fn uapubsub_writer_enable(
    alloc: Global,
    handle: &mut Handle,
    group: u32,
    writer: u32,
) -> u32
    requires { IsReady handle.old }
    ensures { Calls (OfPublisher (SwitchesWriter group writer true)) handle.old result handle.new }
{
    number_of(handle.publisher(alloc, |publisher| {
        switch_writer(publisher, group, writer, true)
    }))
}

/// The writer with this index in the group with this index sends nothing from now on (OPC 10000-14 6.2.1, Disable).
#[unsafe(no_mangle)]
pub extern "C" fn uapubsub_writer_disable(
    alloc: Global,
    handle: &mut Handle,
    group: u32,
    writer: u32,
) -> u32
    requires { IsReady handle.old }
    ensures { Calls (OfPublisher (SwitchesWriter group writer false)) handle.old result handle.new }
{
    number_of(handle.publisher(alloc, |publisher| {
        switch_writer(publisher, group, writer, false)
    }))
}

fn switch_writer(publisher: &mut Publisher, group: u32, writer: u32, on: bool) -> Result<(), Status>
    requires { IsPublisher publisher.old }
    ensures publisher { IsPublisher publisher.new }
    ensures switches { SwitchesWriter group writer on publisher.old result publisher.new }
{
    let Some((group, writer)) = two_indexes(group, writer) else {
        return Err(Status::Index);
    };
    if publisher.switch(group, writer, on) {
        Ok(())
    } else {
        Err(Status::Index)
    }
}

/// The reader with this index in the read group with this index reads from now on.
#[unsafe(no_mangle)]
pub extern "C" fn uapubsub_reader_enable(
    alloc: Global,
    handle: &mut Handle,
    group: u32,
    reader: u32,
) -> u32
    requires { IsReady handle.old }
    ensures { Calls (OfSubscriber (SwitchesReader group reader true))
        handle.old result handle.new }
{
    number_of(handle.subscriber(alloc, |subscriber| {
        switch_reader(subscriber, group, reader, true)
    }))
}

/// The reader with this index in the read group with this index lets its row go, and is given nothing from now on.
#[unsafe(no_mangle)]
pub extern "C" fn uapubsub_reader_disable(
    alloc: Global,
    handle: &mut Handle,
    group: u32,
    reader: u32,
) -> u32
    requires { IsReady handle.old }
    ensures { Calls (OfSubscriber (SwitchesReader group reader false))
        handle.old result handle.new }
{
    number_of(handle.subscriber(alloc, |subscriber| {
        switch_reader(subscriber, group, reader, false)
    }))
}

fn switch_reader(
    subscriber: &mut Subscriber,
    group: u32,
    reader: u32,
    on: bool,
) -> Result<(), Status>
    requires { IsSubscriber subscriber.old }
    ensures subscriber { IsSubscriber subscriber.new }
    ensures switches { SwitchesReader group reader on subscriber.old result subscriber.new }
{
    let Some((group, reader)) = two_indexes(group, reader) else {
        return Err(Status::Index);
    };
    if subscriber.switch(group, reader, on) {
        Ok(())
    } else {
        Err(Status::Index)
    }
}
