//! What readers received, and what read groups accepted last.
ghost use Rattle.std.specs.Prelude.{◌≡◌};
ghost use Rattle.device.specs.Sides.{IsSubscriber};
ghost use Rattle.uapubsub_c.specs.Answers.{Asks, OfSubscriber, Stays};
ghost use Rattle.uapubsub_c.specs.Handles.{IsReady};
ghost use Rattle.uapubsub_c.specs.Receiving.{TellsLastTaken, TellsReceived, received_words};

use crate::handle::Handle;
use crate::indexes::{one_index, two_indexes};
use crate::status::{Status, tell};
use device::Subscriber;
use reader_group::Notice;
use std::alloc::Global;

/// What a reader received since the subscriber was opened, as C sees it.
#[repr(C)]
#[derive(Clone, Copy)]
pub struct ReceivedWords {
    /// How many messages were missing by their numbers.
    pub lost: u64,
    /// How often a row was stored.
    pub stored: u64,
    /// The moment of the last message that was taken, in milliseconds; 0 where none was.
    pub seen: u64,
    /// 1 where one was, else 0.
    pub has_seen: u32,
}

/// The token and the number of a datagram under a security header, as C sees them.
#[repr(C)]
#[derive(Clone, Copy)]
pub struct LastTakenWords {
    /// The SecurityTokenId.
    pub token: u32,
    /// The number in the nonce.
    pub number: u32,
}

/// How many messages a reader lost, how often it stored a row, and when it took the last message.
#[unsafe(no_mangle)]
pub extern "C" fn uapubsub_reader_received(
    alloc: Global,
    handle: &mut Handle,
    group: u32,
    reader: u32,
    received: &mut ReceivedWords,
) -> u32
    requires { IsReady handle.old }
    ensures { Asks (OfSubscriber (Stays (TellsReceived group reader)))
        handle.old result received.old received.new handle.new }
{
    let answer = handle.ask_subscriber(alloc, |subscriber| received_in(subscriber, group, reader));
    tell(answer, received)
}

fn received_in(subscriber: &Subscriber, group: u32, reader: u32) -> Result<ReceivedWords, Status>
    requires { IsSubscriber subscriber.now }
    ensures { TellsReceived group reader subscriber.now result }
{
    let Some((group, reader)) = two_indexes(group, reader) else {
        return Err(Status::Index);
    };
    match subscriber.notice(group, reader) {
        Some(notice) => Ok(received_words(&notice)),
        None => Err(Status::Index),
    }
}

fn received_words(notice: &Notice) -> ReceivedWords
    ensures { result ≡ received_words notice.now }
{
    ReceivedWords {
        lost: notice.lost,
        stored: notice.stored,
        seen: notice.seen.unwrap_or(0),
        has_seen: u32::from(notice.seen.is_some()),
    }
}

/// The token and the number of the last datagram that a read group accepted under a security header.
#[unsafe(no_mangle)]
pub extern "C" fn uapubsub_read_group_last_taken(
    alloc: Global,
    handle: &mut Handle,
    group: u32,
    taken: &mut LastTakenWords,
) -> u32
    requires { IsReady handle.old }
    ensures { Asks (OfSubscriber (Stays (TellsLastTaken group)))
        handle.old result taken.old taken.new handle.new }
{
    let answer = handle.ask_subscriber(alloc, |subscriber| last_taken_in(subscriber, group));
    tell(answer, taken)
}

fn last_taken_in(subscriber: &Subscriber, group: u32) -> Result<LastTakenWords, Status>
    requires { IsSubscriber subscriber.now }
    ensures { TellsLastTaken group subscriber.now result }
{
    let Some(group) = one_index(group) else {
        return Err(Status::Index);
    };
    match subscriber.last_taken(group) {
        Some(Some(pair)) => Ok(LastTakenWords {
            token: pair.token,
            number: pair.number,
        }),
        Some(None) => Err(Status::Nothing),
        None => Err(Status::Index),
    }
}
