//! The first message numbers of writers.
ghost use Rattle.std.specs.Prelude.{◌≡◌};
ghost use Rattle.std.specs.Bool.{OnFalse, OnTrue};
ghost use Rattle.device.specs.Sides.{HasNoWriter, IsPublisher};
ghost use Rattle.uapubsub_c.specs.Answers.{Calls, OfPublisher};
ghost use Rattle.uapubsub_c.specs.Beginning.{BeginsWriter, HasWriterIn};
ghost use Rattle.uapubsub_c.specs.Handles.{IsReady};

use crate::handle::Handle;
use crate::indexes::two_indexes;
use crate::status::{Status, number_of};
use device::Publisher;
use std::alloc::Global;

/// The first data message of the writer with this index in the group with this index has this number, where its group had no turn yet.
#[unsafe(no_mangle)]
pub extern "C" fn uapubsub_writer_begin_at(
    alloc: Global,
    handle: &mut Handle,
    group: u32,
    writer: u32,
    number: u16,
) -> u32
    requires { IsReady handle.old }
    ensures { Calls (OfPublisher (BeginsWriter group writer number))
        handle.old result handle.new }
{
    number_of(handle.publisher(alloc, |publisher| {
        begin_writer(publisher, group, writer, number)
    }))
}

fn begin_writer(
    publisher: &mut Publisher,
    group: u32,
    writer: u32,
    number: u16,
) -> Result<(), Status>
    requires { IsPublisher publisher.old }
    ensures publisher { IsPublisher publisher.new }
    ensures begins { BeginsWriter group writer number publisher.old result publisher.new }
{
    let Some((group, writer)) = two_indexes(group, writer) else {
        return Err(Status::Index);
    };
    if publisher.begin_at(group, writer, number) {
        return Ok(());
    }
    if has_writer(publisher, group, writer) {
        Err(Status::Begun)
    } else {
        Err(Status::Index)
    }
}

fn has_writer(publisher: &Publisher, group: u8, writer: u8) -> bool
    requires { IsPublisher publisher.now }
    ensures there { OnTrue result (HasWriterIn group writer publisher.now) }
    ensures not { OnFalse result (HasNoWriter group writer publisher.now) }
{
    let index = usize::from(group);
    if index >= publisher.sides.len() {
        return false;
    }
    publisher.sides[index].has_writer(&publisher.config, writer)
}
