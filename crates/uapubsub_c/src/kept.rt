//! What a handle holds.
ghost use Rattle.std.specs.Prelude.{◌≡◌};
ghost use Rattle.std.specs.Fn.{FnOnceReturnsAt, FnOnceReturnsAtMut};
ghost use Rattle.uapubsub_c.specs.Answers.{AsksPublisher, AsksSubscriber, MovesPublisher, MovesSubscriber, OfPublisher, OfSubscriber, Stays};
ghost use Rattle.uapubsub_c.specs.Handles.{IsSound, config_in};

use crate::status::Status;
use device::{Publisher, Subscriber};
use ps_config::Config;

/// One side of a device.
#[derive(Drop)]
pub enum Kept {
    Publisher(Publisher),
    Subscriber(Subscriber),
}

impl Kept {
    /// Has the publisher moved by this. A subscriber is the other side.
    pub fn publisher<F: FnOnce(&mut Publisher) -> Result<(), Status>>(
        &mut self,
        moving: F,
    ) -> Result<(), Status>
        requires sound { IsSound self.old }
        requires moving { MovesPublisher F.FnOnce moving }
        ensures sound { IsSound self.new }
        ensures moved { OfPublisher (FnOnceReturnsAtMut F.FnOnce moving) self.old result self.new }
    {
        match self {
            Kept::Publisher(publisher) => moving(publisher),
            Kept::Subscriber(_) => Err(Status::OtherSide),
        }
    }

    /// Has the subscriber moved by this. A publisher is the other side.
    pub fn subscriber<F: FnOnce(&mut Subscriber) -> Result<(), Status>>(
        &mut self,
        moving: F,
    ) -> Result<(), Status>
        requires sound { IsSound self.old }
        requires moving { MovesSubscriber F.FnOnce moving }
        ensures sound { IsSound self.new }
        ensures moved { OfSubscriber (FnOnceReturnsAtMut F.FnOnce moving) self.old result self.new }
    {
        match self {
            Kept::Subscriber(subscriber) => moving(subscriber),
            Kept::Publisher(_) => Err(Status::OtherSide),
        }
    }

    /// Asks the publisher. A subscriber is the other side.
    pub fn ask_publisher<T, F: FnOnce(&Publisher) -> Result<T, Status>>(
        &self,
        question: F,
    ) -> Result<T, Status>
        requires sound { IsSound self.now }
        requires question { AsksPublisher F.FnOnce question }
        ensures { OfPublisher (Stays (FnOnceReturnsAt F.FnOnce question))
            self.now result self.now }
    {
        match self {
            Kept::Publisher(publisher) => question(publisher),
            Kept::Subscriber(_) => Err(Status::OtherSide),
        }
    }

    /// Asks the subscriber. A publisher is the other side.
    pub fn ask_subscriber<T, F: FnOnce(&Subscriber) -> Result<T, Status>>(
        &self,
        question: F,
    ) -> Result<T, Status>
        requires sound { IsSound self.now }
        requires question { AsksSubscriber F.FnOnce question }
        ensures { OfSubscriber (Stays (FnOnceReturnsAt F.FnOnce question))
            self.now result self.now }
    {
        match self {
            Kept::Subscriber(subscriber) => question(subscriber),
            Kept::Publisher(_) => Err(Status::OtherSide),
        }
    }

    /// The configuration that it was opened with.
    pub fn config(&self) -> &Config
        ensures { result.now ≡ config_in self.now }
    {
        match self {
            Kept::Publisher(publisher) => &publisher.config,
            Kept::Subscriber(subscriber) => &subscriber.config,
        }
    }
}
