//! Handles.
ghost use Rattle.std.specs.Prelude.{◌≡◌, IfErr, IfNone, IfOk, IfSome, None};
ghost use Rattle.std.specs.Fn.{FnOnceReturnsAt, FnOnceReturnsAtMut};
ghost use Rattle.uapubsub_c.specs.Answers.{Answered, AsksPublisher, AsksSubscriber, MovesPublisher, MovesSubscriber, OfConfig, OfPublisher, OfSubscriber, Stays};
ghost use Rattle.uapubsub_c.specs.Handles.{Holds, IsReady, IsSound};

use crate::kept::Kept;
use crate::loose::Loose;
use crate::slot::Slot;
use crate::status::Status;
use device::{Publisher, Subscriber};
use ps_config::Config;
use std::alloc::Global;
use std::mem::replace;

/// What C has of a publisher or a subscriber. It begins as zeros, which is closed, and C never writes it after that.
#[repr(C)]
#[derive(Drop)]
pub struct Handle {
    pub is_open: u32,
    pub slot: Slot,
}

impl Handle {
    /// The handle of zeros, as one begins in C (`UAP_CLOSED_HANDLE`): it is closed, and each call may be made with it.
    pub fn zeros() -> Handle
        ensures ready { IsReady result }
        ensures closed { result.is_open ≡ 0 }
        ensures nothing { result.slot.held ≡ None }
    {
        Handle {
            is_open: 0,
            slot: Slot::none(),
        }
    }

    /// Takes what is held out of the handle, which is closed from then on. None where it is closed, and then nothing changes.
    pub fn take(&mut self, alloc: Global) -> Option<Box<Kept>>
        requires { IsReady self.old }
        ensures held { IfSome result (λ kept. Holds kept.value self.old) }
        ensures sound { IfSome result (λ kept. IsSound kept.value) }
        ensures ready { IsReady self.new }
        ensures closed { self.new.is_open ≡ 0 }
        ensures none { IfNone result (self.new ≡ self.old) }
        ensures was_closed { IfNone result (self.old.is_open ≡ 0) }
    {
        if self.is_open == 0 {
            return None;
        }
        self.is_open = 0;
        let slot = replace(&mut self.slot, Slot::none());
        Some(slot.into_loose(alloc).into_box())
    }

    /// Puts it into the handle, which is open from then on.
    pub fn put(&mut self, kept: Box<Kept>)
        requires { IsSound kept.value }
        ensures ready { IsReady self.new }
        ensures held { Holds kept.value self.new }
    {
        self.slot = Slot::of(Loose::of(kept));
        self.is_open = 1;
    }

    /// Opens it with a side of a device, if there is memory for that.
    pub fn keep(&mut self, alloc: Global, kept: Kept) -> Result<(), Status>
        requires ready { IsReady self.old }
        requires sound { IsSound kept }
        ensures ready { IsReady self.new }
        ensures held { IfOk result (λ _. Holds kept self.new) }
        ensures not { IfErr result (λ _. self.new ≡ self.old) }
        ensures memory { IfErr result (λ status. status ≡ Status.Memory) }
    {
        match Box::new(alloc, kept) {
            Ok(kept) => {
                self.put(kept);
                Ok(())
            }
            Err(_) => Err(Status::Memory),
        }
    }

    /// Has the publisher that is held moved by this.
    pub fn publisher<F: FnOnce(&mut Publisher) -> Result<(), Status>>(
        &mut self,
        alloc: Global,
        moving: F,
    ) -> Result<(), Status>
        requires ready { IsReady self.old }
        requires moving { MovesPublisher F.FnOnce moving }
        ensures { Answered (OfPublisher (FnOnceReturnsAtMut F.FnOnce moving))
            self.old result self.new }
    {
        let Some(mut kept) = self.take(alloc) else {
            return Err(Status::Closed);
        };
        let answer = kept.publisher(moving);
        self.put(kept);
        answer
    }

    /// Has the subscriber that is held moved by this.
    pub fn subscriber<F: FnOnce(&mut Subscriber) -> Result<(), Status>>(
        &mut self,
        alloc: Global,
        moving: F,
    ) -> Result<(), Status>
        requires ready { IsReady self.old }
        requires moving { MovesSubscriber F.FnOnce moving }
        ensures { Answered (OfSubscriber (FnOnceReturnsAtMut F.FnOnce moving))
            self.old result self.new }
    {
        let Some(mut kept) = self.take(alloc) else {
            return Err(Status::Closed);
        };
        let answer = kept.subscriber(moving);
        self.put(kept);
        answer
    }

    /// Asks the publisher that is held.
    pub fn ask_publisher<T, F: FnOnce(&Publisher) -> Result<T, Status>>(
        &mut self,
        alloc: Global,
        question: F,
    ) -> Result<T, Status>
        requires ready { IsReady self.old }
        requires question { AsksPublisher F.FnOnce question }
        ensures { Answered (OfPublisher (Stays (FnOnceReturnsAt F.FnOnce question)))
            self.old result self.new }
    {
        let Some(kept) = self.take(alloc) else {
            return Err(Status::Closed);
        };
        let answer = kept.ask_publisher(question);
        self.put(kept);
        answer
    }

    /// Asks the subscriber that is held.
    pub fn ask_subscriber<T, F: FnOnce(&Subscriber) -> Result<T, Status>>(
        &mut self,
        alloc: Global,
        question: F,
    ) -> Result<T, Status>
        requires ready { IsReady self.old }
        requires question { AsksSubscriber F.FnOnce question }
        ensures { Answered (OfSubscriber (Stays (FnOnceReturnsAt F.FnOnce question)))
            self.old result self.new }
    {
        let Some(kept) = self.take(alloc) else {
            return Err(Status::Closed);
        };
        let answer = kept.ask_subscriber(question);
        self.put(kept);
        answer
    }

    /// Asks the configuration of the side that is held.
    pub fn ask_config<T, F: FnOnce(&Config) -> Result<T, Status>>(
        &mut self,
        alloc: Global,
        question: F,
    ) -> Result<T, Status>
        requires ready { IsReady self.old }
        requires question { F.IsAlwaysCallable question }
        ensures { Answered (OfConfig (FnOnceReturnsAt F.FnOnce question))
            self.old result self.new }
    {
        let Some(kept) = self.take(alloc) else {
            return Err(Status::Closed);
        };
        let answer = question(kept.config());
        self.put(kept);
        answer
    }
}
