//! What of a publisher's numbers is stored, and how it goes on after a restart.
ghost use Rattle.std.specs.Prelude.{◌≡◌, ◌≢◌, IfErr};
ghost use Rattle.device.specs.Sides.{IsPublisher};
ghost use Rattle.uapubsub_c.specs.Answers.{Calls, OfPublisher, Stays};
ghost use Rattle.uapubsub_c.specs.Handles.{IsReady, IsSound};
ghost use Rattle.uapubsub_c.specs.Storing.{Restores, Saves, Stores, TellsMustStore};

use crate::handle::Handle;
use crate::kept::Kept;
use crate::laying::lay;
use crate::status::{Status, number_of};
use device::{Publisher, RestoreEnd};
use std::alloc::Global;
use stored_state::STATE_BYTES;

/// Lays the bytes that a device stores at the front of the buffer: after a restart `uapubsub_publisher_restore` goes on after them. Of
/// each key group they reserve `ahead` numbers. From now on a datagram of a secured group waits until its number is in store.
#[unsafe(no_mangle)]
pub extern "C" fn uapubsub_publisher_save(
    alloc: Global,
    handle: &mut Handle,
    ahead: u32,
    buffer: &mut [u8],
    count: &mut usize,
) -> u32
    requires { IsReady handle.old }
    ensures saves { Calls (OfPublisher (Saves ahead buffer.old buffer.new count.new))
        handle.old result handle.new }
    ensures rest { result ≢ 0 → buffer.new ≡ buffer.old }
    ensures untold { result ≢ 0 → count.new ≡ 0 }
{
    *count = 0;
    let Some(mut kept) = handle.take(alloc) else {
        return Status::Closed.number();
    };
    let answer = save_of(&mut kept, ahead, buffer, count);
    handle.put(kept);
    number_of(answer)
}

fn save_of(kept: &mut Kept, ahead: u32, buffer: &mut [u8], count: &mut usize) -> Result<(), Status>
    requires { IsSound kept.old }
    ensures sound { IsSound kept.new }
    ensures saves { OfPublisher (Saves ahead buffer.old buffer.new count.new)
        kept.old result kept.new }
    ensures rest { IfErr result (λ _. buffer.new ≡ buffer.old) }
    ensures untold { IfErr result (λ _. count.new ≡ count.old) }
{
    match kept {
        Kept::Publisher(publisher) => save(publisher, ahead, buffer, count),
        Kept::Subscriber(_) => Err(Status::OtherSide),
    }
}

fn save(
    publisher: &mut Publisher,
    ahead: u32,
    buffer: &mut [u8],
    count: &mut usize,
) -> Result<(), Status>
    requires { IsPublisher publisher.old }
    ensures publisher { IsPublisher publisher.new }
    ensures saves { Saves ahead buffer.old buffer.new count.new
        publisher.old result publisher.new }
    ensures rest { IfErr result (λ _. buffer.new ≡ buffer.old) }
    ensures untold { IfErr result (λ _. count.new ≡ count.old) }
{
    if buffer.len() < STATE_BYTES {
        return Err(Status::Room);
    }
    let bytes = publisher.save(ahead);
    *count = lay(&bytes, buffer);
    Ok(())
}

/// The bytes of the last `uapubsub_publisher_save` are stored.
#[unsafe(no_mangle)]
pub extern "C" fn uapubsub_publisher_stored(alloc: Global, handle: &mut Handle) -> u32
    requires { IsReady handle.old }
    ensures { Calls (OfPublisher Stores) handle.old result handle.new }
{
    number_of(handle.publisher(alloc, |publisher| stored(publisher)))
}

fn stored(publisher: &mut Publisher) -> Result<(), Status>
    requires { IsPublisher publisher.old }
    ensures publisher { IsPublisher publisher.new }
    ensures stores { Stores publisher.old result publisher.new }
{
    publisher.stored();
    Ok(())
}

/// Whether the device has to save and store now, so that no datagram waits for that.
#[unsafe(no_mangle)]
pub extern "C" fn uapubsub_publisher_must_store(alloc: Global, handle: &mut Handle) -> u32
    requires { IsReady handle.old }
    ensures { Calls (OfPublisher (Stays TellsMustStore)) handle.old result handle.new }
{
    number_of(handle.ask_publisher(alloc, |publisher| must_store(publisher)))
}

fn must_store(publisher: &Publisher) -> Result<(), Status>
    requires { IsPublisher publisher.now }
    ensures { TellsMustStore publisher.now result }
{
    if publisher.must_store() {
        Ok(())
    } else {
        Err(Status::Nothing)
    }
}

/// Goes on at `now`, in milliseconds, after bytes that `uapubsub_publisher_save` laid and the device stored. Call it after the opening,
/// and after a renewal with a stored ring. Before the next datagram of a secured group the device saves and stores again.
#[unsafe(no_mangle)]
pub extern "C" fn uapubsub_publisher_restore(
    alloc: Global,
    handle: &mut Handle,
    now: u64,
    bytes: &[u8],
) -> u32
    requires { IsReady handle.old }
    ensures { Calls (OfPublisher (Restores now bytes.now)) handle.old result handle.new }
{
    number_of(handle.publisher(alloc, |publisher| restore(publisher, now, bytes)))
}

fn restore(publisher: &mut Publisher, now: u64, bytes: &[u8]) -> Result<(), Status>
    requires { IsPublisher publisher.old }
    ensures publisher { IsPublisher publisher.new }
    ensures restores { Restores now bytes.now publisher.old result publisher.new }
{
    match publisher.restore(now, bytes) {
        Ok(()) => Ok(()),
        Err(RestoreEnd::Damaged) => Err(Status::Damaged),
        Err(RestoreEnd::OtherConfig) => Err(Status::OtherConfig),
        Err(RestoreEnd::LaterToken { .. }) => Err(Status::LaterToken),
    }
}
