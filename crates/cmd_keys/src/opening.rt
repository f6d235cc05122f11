//! A guard over a pulled ring, and what it opens.
ghost use Rattle.std.specs.Prelude.{◌≡◌, ◌≤◌, [], All, IfOk, length, option_map};
ghost use Rattle.key_service.specs.Laws.{IsReply};
ghost use Rattle.key_service.specs.Pulled.{as_read, IsPullable};
ghost use Rattle.message_guard.specs.Guards.{IsGuardOf, setup_of};
ghost use Rattle.cmd_keys.specs.Opening.{Finds, HasLength};
ghost use Rattle.cmd_keys.specs.Trials.{AreTrials, IsTrial, puller_setup};

use crate::copying::copied;
use crate::protecting::{FIRST_BLOCK, protect_zeros};
use crate::trial::Trial;
use arrayvec::ArrayVec;
use group_keys::KeySet;
use key_service::{Keys, a_read_answer_is_pulled_as_the_answer, pulled};
use message_guard::{Guard, Mode};
use uadp_header::read_header;

/// Tries each key of an answer to START 0: a datagram is protected under it, and given to a guard over the ring that a puller makes
/// of the keys that it read.
pub(crate) fn trials_of(keys: &Keys, back: &Keys) -> ArrayVec<Trial, 16>
    requires reply { IsReply keys.now }
    requires pullable { IsPullable keys.now }
    requires back { back.now ≡ as_read keys.now }
    ensures { AreTrials (puller_setup back.now) keys.now.keys.items result.items }
{
    let guard = guard_of(keys, back);
    each_trial(&guard, keys.long, keys.keys.as_slice())
}

/// The guard over the ring that a puller makes of the keys that it read.
fn guard_of(keys: &Keys, back: &Keys) -> Guard
    requires pullable { IsPullable keys.now }
    requires back { back.now ≡ as_read keys.now }
    ensures fresh { IsGuardOf [] result }
    ensures setup { setup_of result ≡ puller_setup back.now }
{
    a_read_answer_is_pulled_as_the_answer();
    Guard::new(pulled(back), Mode::Encrypt, FIRST_BLOCK)
}

fn each_trial(guard: &Guard, long: bool, sets: &[KeySet]) -> ArrayVec<Trial, 16>
    requires fresh { IsGuardOf [] guard.now }
    requires lengths { All (HasLength long) sets.now }
    requires few { length sets.now ≤ 16 }
    ensures { AreTrials (setup_of guard.now) sets.now result.items }
{
    let mut trials = ArrayVec::new();
    for set in sets {
        trials.push(trial_of(guard, long, set));
    }
    trials
}

/// Protects four zero bytes under the key, and gives them to the guard.
fn trial_of(guard: &Guard, long: bool, set: &KeySet) -> Trial
    requires fresh { IsGuardOf [] guard.now }
    requires length { HasLength long set.now }
    ensures { IsTrial (setup_of guard.now) set.now result }
{
    let mut room = [0; 64];
    let end = protect_zeros(long, set, &mut room);
    let sent = copied(&room[..end]);
    let found = found_by(guard, &mut room[..end]);
    Trial {
        token: set.token,
        sent,
        found,
    }
}

/// What the guard decrypts of the datagram, where it passes it.
fn found_by(guard: &Guard, datagram: &mut [u8]) -> Option<ArrayVec<u8, 64>>
    requires fresh { IsGuardOf [] guard.now }
    requires short { length datagram.old ≤ 64 }
    ensures { Finds (setup_of guard.now) datagram.old (option_map (λ found. found.items) result) }
{
    let Ok((header, payload)) = read_header(datagram) else {
        return None;
    };
    let Ok(pass) = guard.test(header.security.as_ref(), datagram, payload) else {
        return None;
    };
    guard.decrypt(&pass, datagram, payload);
    Some(copied(&datagram[payload..pass.end]))
}
