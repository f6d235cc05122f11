//! The groups of a publisher, and their senders.
ghost use Rattle.std.specs.Prelude.{◌≡◌, ◌<◌, ◌≤◌, ◌↔◌, All, IsTrue, length};
ghost use Rattle.std.specs.List.{AllZip};
ghost use Rattle.message_guard.specs.Senders.{IsSender, turned};
ghost use Rattle.device.specs.Coming.{HasNewToken, IsRefreshedFor, turned_to};
ghost use Rattle.device.specs.Raising.{AreRaised, IsRefreshedBy, is_raised};
ghost use Rattle.device.specs.Resuming.{IsRefreshedWith};
ghost use Rattle.device.specs.Sides.{IsSide};

use crate::side::Side;
use message_guard::Sender;
use ps_config::Config;

/// How many key groups a configuration has at most.
const MOST_KEYGROUPS: usize = 4;

/// Each sender turns to the last key set whose moment has come. Where its token changed, its groups send key frames next.
pub fn turn_senders(config: &Config, sides: &mut [Side], senders: &mut [Sender], now: u64)
    requires few { length senders.old ≤ MOST_KEYGROUPS }
    requires sides { All (IsSide config.now) sides.old }
    requires senders { All IsSender senders.old }
    ensures sides { All (IsSide config.now) sides.new }
    ensures senders { All IsSender senders.new }
    ensures state { senders.new ≡ turned_to now senders.old }
    ensures refreshed { AllZip (IsRefreshedFor config.now now senders.old) sides.old sides.new }
{
    let raised = turn_each(senders, now);
    refresh_raised(config, sides, &raised);
}

/// Where the token of this key group changed, the groups that are secured with its keys send key frames next.
pub fn refresh_with(config: &Config, sides: &mut [Side], keygroup: u8, changed: bool)
    requires few { keygroup < MOST_KEYGROUPS }
    requires sides { All (IsSide config.now) sides.old }
    ensures sides { All (IsSide config.now) sides.new }
    ensures refreshed { AllZip (IsRefreshedWith config.now keygroup (IsTrue changed))
        sides.old sides.new }
{
    let mut raised = [false; MOST_KEYGROUPS];
    raised[usize::from(keygroup)] = changed;
    refresh_raised(config, sides, &raised);
}

/// The groups that are secured with the keys of key groups whose tokens changed send key frames next.
fn refresh_raised(config: &Config, sides: &mut [Side], raised: &[bool; 4])
    requires { All (IsSide config.now) sides.old }
    ensures sides { All (IsSide config.now) sides.new }
    ensures refreshed { AllZip (IsRefreshedBy config.now raised.now) sides.old sides.new }
{
    for g in 0..sides.len() {
        refresh_if(config, &mut sides[g], raised);
    }
}

/// Each sender turns to the last key set whose moment has come. The answer is whose tokens changed.
fn turn_each(senders: &mut [Sender], now: u64) -> [bool; 4]
    requires few { length senders.old ≤ MOST_KEYGROUPS }
    requires senders { All IsSender senders.old }
    ensures senders { All IsSender senders.new }
    ensures state { senders.new ≡ turned_to now senders.old }
    ensures raised { AreRaised now senders.old result }
{
    let mut raised = [false; MOST_KEYGROUPS];
    for k in 0..senders.len() {
        raised[k] = turn_one(&mut senders[k], now);
    }
    raised
}

/// The sender turns to the last key set whose moment has come. Whether its token changed.
fn turn_one(sender: &mut Sender, now: u64) -> bool
    requires { IsSender sender.old }
    ensures sender { IsSender sender.new }
    ensures state { sender.new ≡ turned sender.old now }
    ensures changed { IsTrue result ↔ HasNewToken now sender.old }
{
    sender.turn_to(now)
}

/// The group sends key frames next, if it is secured with the keys of a key group whose token changed.
fn refresh_if(config: &Config, side: &mut Side, raised: &[bool; 4])
    requires { IsSide config.now side.old }
    ensures side { IsSide config.now side.new }
    ensures refreshed { IsRefreshedBy config.now raised.now side.old side.new }
{
    if !is_raised(side.keygroup(config), raised) {
        return;
    }
    side.refresh(config);
}

/// Whether it is a key group whose token changed.
fn is_raised(keygroup: Option<u8>, raised: &[bool; 4]) -> bool
    ensures { result ≡ is_raised raised.now keygroup }
{
    let Some(keygroup) = keygroup else {
        return false;
    };
    let k = usize::from(keygroup);
    if k >= MOST_KEYGROUPS {
        return false;
    }
    raised[k]
}
