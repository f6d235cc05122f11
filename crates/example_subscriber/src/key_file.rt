//! Keys that come while the subscriber listens.
ghost use Rattle.std.specs.Prelude.{IfSome};
ghost use Rattle.ps_config.specs.Sound.{IsKeyGroup};
ghost use Rattle.writer_group.specs.Standing.{IsGood};

use example_parts::configuration;
use group_keys::Ring;
use ps_config::{Config, KeyGroupPart, ring_of};
use std::alloc::Global;
use std::rt::Files;

/// How long the file isn't read again, in milliseconds.
const PAUSE: u64 = 1000;

/// The file that keys are read from, which is the configuration's: whoever has a later key puts it there. A device that asks a key
/// service (OPC 10000-14 8.3.2) does so in its place.
#[derive(Drop)]
pub struct KeyFile<'w> {
    name: &'w str,
    /// The next moment at which it may be read.
    next: u64,
}

impl<'w> KeyFile<'w> {
    pub fn new(name: &'w str) -> KeyFile<'w> {
        KeyFile { name, next: 0 }
    }

    /// The keys of the read group as the file has them now: nothing where it was read a short time ago, where it can't be read, and
    /// where its keys are of another length than those of the group that is running.
    pub fn ring<R: Files>(
        &mut self,
        rt: &R,
        alloc: Global,
        now: u64,
        running: &Config,
    ) -> Option<Ring>
        requires { IsGood running.now }
    {
        if now < self.next {
            return None;
        }
        self.next = now.saturating_add(PAUSE);
        let fresh = configuration(rt, alloc, self.name).ok()?;
        let keys = keys_of(&fresh)?;
        if keys_of(running)?.policy == keys.policy {
            Some(ring_of(keys))
        } else {
            None
        }
    }
}

/// The key group of a configuration's one read group.
fn keys_of(config: &Config) -> Option<&KeyGroupPart>
    requires { IsGood config.now }
    ensures { IfSome result (λ keys. IsKeyGroup keys.now) }
{
    let [part] = config.readgroup.as_slice() else {
        return None;
    };
    let keygroup = part.keygroup?;
    Some(&config.keygroup.as_slice()[usize::from(keygroup)])
}
