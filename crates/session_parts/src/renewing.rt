//! Rings that renew the keys of a key group.
ghost use Rattle.std.specs.Prelude.{◌≡◌, ◌<◌, length, map};
ghost use Rattle.group_keys.specs.Ring.{key_sets};
ghost use Rattle.message_guard.specs.Protection.{keys_in};
ghost use Rattle.reader_group.specs.Groups.{index_of};
ghost use Rattle.session_model.specs.Readings.{reads_with};
ghost use Rattle.session_parts.specs.Befalling.{StaysMadeOf};
ghost use Rattle.session_parts.specs.Holding.{HoldSubscriber};
ghost use Rattle.session_parts.specs.Renewing.{HaveRekeyed, HaveRenewed, IsRekeyedIf, IsTokenKept, StillPublishes};

use crate::publisher::Publisher;
use crate::subscriber::{Subscriber, read_group_part};
use group_keys::Ring;
use ps_config::{Config, ReadGroupPart};
use reader_group::ReaderGroup;

impl Publisher {
    /// The sender of a key group goes on with another ring, of the same key length: under the token in use until a higher one
    /// comes, and its numbers go on. The answer is whether the ring has that token, with the same keys.
    pub fn renew(&mut self, key_group: u8, ring: Ring) -> bool
        requires there { key_group < length self.old.senders.items }
        ensures kept { IsTokenKept key_group (key_sets ring) self.old.senders.items result }
        ensures renewed { HaveRenewed key_group (key_sets ring)
            self.old.senders.items self.new.senders.items }
        ensures holds { StillPublishes self.old self.new }
        ensures rest { self.new ≡ record self.old { senders = self.new.senders } }
    {
        let sender = &mut self.senders[usize::from(key_group)];
        let is_kept = sender.keeps_token(&ring);
        sender.renew(ring);
        is_kept
    }
}

impl Subscriber {
    /// The read groups that share a key group go on with another ring, of the same key length: what they took stays taken, and
    /// so do their readers, chunks and timers.
    pub fn renew(&mut self, config: &Config, key_group: u8, ring: &Ring)
        requires holds { HoldSubscriber config.now self.old }
        ensures holds { HoldSubscriber config.now self.new }
        ensures rekeyed { HaveRekeyed config.now key_group (map keys_in (key_sets ring.now))
            self.old self.new }
        ensures rest { self.new ≡ record self.old { groups = self.new.groups } }
    {
        for r in 0..self.groups.len() {
            let is_rekeyed = reads_with(read_group_part(config, r), key_group);
            renew_if(&mut self.groups[r], is_rekeyed, ring);
        }
    }
}

/// Whether a read group has the keys of a key group.
fn reads_with(part: &ReadGroupPart, key_group: u8) -> bool
    ensures { result ≡ reads_with part.now key_group }
{
    match part.keygroup {
        Some(k) => k == key_group,
        None => false,
    }
}

/// Where it shares the key group, a read group goes on with a copy of the ring.
fn renew_if(group: &mut ReaderGroup, is_rekeyed: bool, ring: &Ring)
    ensures index { index_of group.new ≡ index_of group.old }
    ensures made { StaysMadeOf group.old group.new }
    ensures rekeyed { IsRekeyedIf is_rekeyed (map keys_in (key_sets ring.now)) group.old group.new }
{
    if !is_rekeyed {
        return;
    }
    match ring.clone() {
        Ok(copy) => group.renew(copy),
        Err(_) => unreachable!(),
    }
}
