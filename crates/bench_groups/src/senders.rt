//! The sender of a secured group.
ghost use Rattle.std.specs.Prelude.{◌<◌, IfOk, length};
ghost use Rattle.message_guard.specs.Senders.{IsSender};
ghost use Rattle.ps_config.specs.Sound.{IsSound, IsKeyGroup};
ghost use Rattle.bench_groups.specs.Running.{FitsSender};

use bench_base::Unmeasured;
use message_guard::Sender;
use ps_config::{Config, KeyGroupPart, Security, ring_of};

/// The sender of the first group, where that is secured.
pub fn sender_of(config: &Config) -> Result<Option<Sender>, Unmeasured>
    requires sound { IsSound config.now }
    requires group { 0 < length config.now.group }
    ensures { IfOk result (FitsSender config.now) }
{
    let group = &config.group.as_slice()[0];
    match group.security {
        Security::None => Ok(None),
        Security::Sign | Security::Encrypt => {
            let sender = sender_at(config, group.keygroup)?;
            Ok(Some(sender))
        }
    }
}

/// The sender of the key group with this index.
fn sender_at(config: &Config, index: Option<u8>) -> Result<Sender, Unmeasured>
    requires { IsSound config.now }
    ensures { IfOk result IsSender }
{
    let Some(index) = index else {
        return Err(Unmeasured);
    };
    let groups = config.keygroup.as_slice();
    if usize::from(index) >= groups.len() {
        return Err(Unmeasured);
    }
    Ok(sender_with(&groups[usize::from(index)]))
}

fn sender_with(keys: &KeyGroupPart) -> Sender
    requires { IsKeyGroup keys.now }
    ensures { IsSender result }
{
    Sender::new(ring_of(keys), keys.random, keys.first_block, keys.used)
}
