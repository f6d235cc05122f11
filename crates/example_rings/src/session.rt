//! The session of a publisher and a subscriber, and the datagrams between them.
ghost use Rattle.std.specs.Prelude.{IfOk, map};
ghost use Rattle.std.specs.Bool.{OnTrue};
ghost use Rattle.group_keys.specs.Ring.{is_long, key_sets};
ghost use Rattle.message_guard.specs.Protection.{keys_in};
ghost use Rattle.device.specs.Readings.{HasKeysRenewed};
ghost use Rattle.device.specs.Sides.{FitsKeyGroup, FitsReadGroup, HasRenewed, IsPublisher, IsSubscriber};

use crate::configuration::CONFIGURATION;
use crate::fault::Fault;
use crate::keys::{pulled_ring, service_of};
use crate::tally::Tally;
use dataset_meta::Name32;
use dataset_reader::Why;
use device::{Next, Publisher, Subscriber};
use group_keys::Ring;
use key_service::Service;
use message_guard::OpenFault;
use reader_group::Refusal;
use std::alloc::Global;
use std::marker::Model;
use ua_values::{Kind, Value};

/// The publishing interval, in milliseconds.
const INTERVAL: u64 = 100;

/// How far the clocks of the service and of the subscriber are ahead of the publisher's, in milliseconds.
const SERVICE_AHEAD: u64 = 1_350;

const SUBSCRIBER_AHEAD: u64 = 90_000;

/// A datagram on its way, with the turn that made it, which is the row that it publishes.
#[derive(Drop)]
struct Sent {
    turn: u32,
    bytes: Vec<u8>,
}

/// A publisher and a subscriber that pull their keys of one service.
#[derive(Drop)]
pub struct Session {
    alloc: Global,
    service: Service,
    group: Name32,
    publisher: Publisher,
    subscriber: Subscriber,
    turn: u32,
    tally: Tally,
}

impl Model for Session {
    ghost use Rattle.std.specs.Prelude.{ℕ};
    ghost use Rattle.example_rings.specs.Sides.{AreSides};

    ghost Value = { ℕ };

    ghost view = { λ s. s.turn };

    ghost invariant = { λ s. AreSides s.publisher s.subscriber };
}

impl Session {
    /// Before the first ring.
    pub fn open(alloc: Global) -> Result<Session, Fault> {
        let publisher = Publisher::open(alloc, CONFIGURATION.as_bytes())?;
        let subscriber = Subscriber::open(alloc, CONFIGURATION.as_bytes())?;
        let [keys] = publisher.config.keygroup.as_slice() else {
            return Err(Fault::Unlike);
        };
        let group = keys.name;
        Ok(Session {
            alloc,
            service: service_of(group)?,
            group,
            publisher,
            subscriber,
            turn: 0,
            tally: Tally::default(),
        })
    }

    /// Each device pulls a ring by its own clock, and goes on with it. The answer is the token of the current key. What was sent
    /// under the token before has come by now: the new rings lack it.
    pub fn pull(&mut self) -> Result<u32, Fault> {
        let now = self.moment();
        let own = ring_for_sender(&self.publisher, &self.service, &self.group, now)?;
        let other = ring_for_group(&self.subscriber, &self.service, &self.group, now)?;
        let [current, _] = own.key_sets() else {
            return Err(Fault::NoRing);
        };
        let token = current.token;
        if !renew(&mut self.publisher, &mut self.subscriber, own, other) {
            return Err(Fault::Unlike);
        }
        Ok(token)
    }

    /// The four turns while a ring stands: the token rolls over after two of them.
    pub fn turns(&mut self) -> Result<Tally, Fault> {
        self.tally = Tally::default();
        self.roll_over()?;
        let next = self.send()?;
        self.deliver(next)?;
        Ok(self.tally)
    }

    /// Two turns under a token and the later token's first one.
    fn roll_over(&mut self) -> Result<(), Fault> {
        let slow = self.send()?;
        let held_back = self.send()?;
        let first_of_later = self.send()?;
        self.deliver_late(slow, held_back, first_of_later)
    }

    /// The datagrams of the token before were on their way: one comes before the later token's first, and one after it.
    fn deliver_late(
        &mut self,
        slow: Sent,
        held_back: Sent,
        first_of_later: Sent,
    ) -> Result<(), Fault> {
        self.deliver(slow)?;
        self.deliver(first_of_later)?;
        self.deliver(held_back)
    }

    /// The token in use, and the last number under it: what a device keeps over a restart.
    pub fn standing(&self) -> Result<(u32, u32), Fault> {
        self.publisher.standing(0).ok_or(Fault::Unlike)
    }

    /// The row that the reader holds, and why it held none before.
    pub fn held(&self) -> Result<(u64, Why), Fault> {
        let row = self.subscriber.word(0, 0, 0, Kind::UInt32);
        match (row, self.subscriber.reader(0, 0)) {
            (Ok(row), Some(reader)) => Ok((row, reader.why())),
            _ => Err(Fault::NoRow),
        }
    }

    /// The moment of the last turn, by the publisher's clock, in milliseconds.
    fn moment(&self) -> u64 {
        u64::from(self.turn).saturating_mul(INTERVAL)
    }

    /// The datagram of the next turn. Where the moment of the ring's next key has come the sender turns to it first, and the writer
    /// begins anew with a key frame.
    fn send(&mut self) -> Result<Sent, Fault> {
        self.turn = self.turn.saturating_add(1);
        let (turn, now) = (self.turn, self.moment());
        if !self.publisher.set(0, 0, &Value::UInt32(turn), 0) {
            return Err(Fault::Unlike);
        }
        match self.publisher.come_to(now) {
            Next::Datagram => {}
            Next::Nothing | Next::Spent => return Err(Fault::NoDatagram),
        }
        let bytes = Vec::from_slice(self.alloc, self.publisher.datagram())?;
        self.publisher.hand_over();
        self.tally.sent = self.tally.sent.saturating_add(1);
        Ok(Sent { turn, bytes })
    }

    /// The subscriber is given a datagram, and holds its row once it is taken. One of a lower token than the last is refused; each
    /// other refusal ends the session.
    fn deliver(&mut self, mut sent: Sent) -> Result<(), Fault> {
        let now = self.moment().saturating_add(SUBSCRIBER_AHEAD);
        self.subscriber.expire(now);
        match self.subscriber.datagram(0, now, &mut sent.bytes) {
            Some(Ok(_)) => self.note_taken(u64::from(sent.turn)),
            Some(Err(Refusal::Guard(OpenFault::OldToken { .. }))) => {
                self.tally.late = self.tally.late.saturating_add(1);
                Ok(())
            }
            Some(Err(refusal)) => Err(Fault::Refused(refusal)),
            None => Err(Fault::Unlike),
        }
    }

    /// A datagram was taken: it counts where the reader holds this row.
    fn note_taken(&mut self, row: u64) -> Result<(), Fault> {
        let (held, _) = self.held()?;
        if held == row {
            self.tally.taken = self.tally.taken.saturating_add(1);
        }
        Ok(())
    }
}

/// The ring that the publisher pulls at this moment, with keys as long as those of its key group.
fn ring_for_sender(
    publisher: &Publisher,
    service: &Service,
    group: &Name32,
    now: u64,
) -> Result<Ring, Fault>
    ensures long { IfOk result (λ ring. FitsKeyGroup publisher.now.config 0 (is_long ring)) }
{
    match publisher.has_long_keys(0) {
        Some(long) => pulled_ring(service, group, long, now.saturating_add(SERVICE_AHEAD), now),
        None => Err(Fault::Unlike),
    }
}

/// The ring that the subscriber pulls at this moment of the publisher's clock, with keys as long as those of its read group.
fn ring_for_group(
    subscriber: &Subscriber,
    service: &Service,
    group: &Name32,
    now: u64,
) -> Result<Ring, Fault>
    ensures long { IfOk result (λ ring. FitsReadGroup subscriber.now.config 0 (is_long ring)) }
{
    let (asked, own) = (
        now.saturating_add(SERVICE_AHEAD),
        now.saturating_add(SUBSCRIBER_AHEAD),
    );
    match subscriber.has_long_keys(0) {
        Some(long) => pulled_ring(service, group, long, asked, own),
        None => Err(Fault::Unlike),
    }
}

/// The sender of the publisher's key group goes on with its own ring, and the read group with the other.
fn renew(publisher: &mut Publisher, subscriber: &mut Subscriber, own: Ring, other: Ring) -> bool
    requires publisher { IsPublisher publisher.old }
    requires subscriber { IsSubscriber subscriber.old }
    requires own_long { FitsKeyGroup publisher.old.config 0 (is_long own) }
    requires other_long { FitsReadGroup subscriber.old.config 0 (is_long other) }
    ensures publisher { IsPublisher publisher.new }
    ensures subscriber { IsSubscriber subscriber.new }
    ensures sender { OnTrue result (HasRenewed 0 (key_sets own) publisher.old publisher.new) }
    ensures guard { OnTrue result
        (HasKeysRenewed 0 (map keys_in (key_sets other)) subscriber.old subscriber.new) }
{
    publisher.renew(0, own) && subscriber.renew(0, other)
}
