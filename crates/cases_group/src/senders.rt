//! Senders of key groups.
ghost use Rattle.std.specs.Prelude.{All, IfOk};
ghost use Rattle.message_guard.specs.Senders.{IsSender};
ghost use Rattle.ps_config.specs.Sound.{IsKeyGroup};

use case_lines::LineFault;
use group_keys::Ring;
use message_guard::Sender;
use ps_config::{KeyGroupPart, ring_of};
use std::alloc::Global;

/// The senders of all key groups.
pub fn senders_of(alloc: Global, parts: &[KeyGroupPart]) -> Result<Vec<Sender>, LineFault>
    requires { All IsKeyGroup parts.now }
    ensures { IfOk result (λ senders. All IsSender senders.items) }
{
    let mut senders = Vec::new(alloc);
    for part in parts {
        senders.push(sender_of(part))?;
    }
    Ok(senders)
}

fn sender_of(part: &KeyGroupPart) -> Sender
    requires { IsKeyGroup part.now }
    ensures { IsSender result }
{
    Sender::new(ring_of(part), part.random, part.first_block, part.used)
}

/// Turns a sender to a moment; tells whether its token changed.
pub fn has_turned(sender: &mut Sender, now: u64) -> bool
    requires { IsSender sender.old }
    ensures { IsSender sender.new }
{
    sender.turn_to(now)
}

/// A sender goes on with another ring; tells whether the token in use stays in it.
pub fn has_kept(sender: &mut Sender, ring: Ring) -> bool
    requires { IsSender sender.old }
    ensures { IsSender sender.new }
{
    let kept = sender.keeps_token(&ring);
    sender.renew(ring);
    kept
}
