//! Threads with their lists.
use crate::done::Done;
use crate::item::Item;
use std::marker::Model;

/// Threads that have not begun, each with its list and with room for all answers. To a contract it is what each thread begins
/// with, in order.
#[derive(Drop)]
pub struct Crew {
    pub(crate) lists: Vec<Vec<Item>>,
    pub(crate) dones: Vec<Done>,
}

impl Model for Crew {
    ghost use Rattle.std.specs.Prelude.{List};
    ghost use Rattle.app_threads.specs.Duties.{Duty};

    ghost Value = { List Duty };

    ghost use Rattle.app_threads.specs.Crews.{AreFresh, duties_of};

    ghost view = { λ c. duties_of c.lists.items c.dones.items };

    ghost invariant = { λ c. AreFresh c.lists.items c.dones.items };
}
