//! What of a publisher's numbers is in store.
ghost use Rattle.std.specs.Prelude.{◌≡◌, ◌↔◌, ◌<◌, IsTrue, Some};
ghost use Rattle.device.specs.Storing.{IsAheadIn, IsCovered, IsHalfLeft, later_of, none_stored, pair_in, pair_of};

use crate::publisher::is_behind;
use message_guard::Sender;
use stored_state::StoredState;

/// The last number that a token has.
const LAST_NUMBER: u32 = 4_294_967_295;

/// How many key groups a state has room for.
pub const STATE_KEYGROUPS: usize = 4;

/// What `Publisher::save` gave.
#[derive(Clone, Copy)]
pub struct Saved {
    pub state: StoredState,
    /// How many numbers were reserved ahead.
    pub ahead: u32,
}

/// What of a publisher's numbers is in store.
#[derive(Clone, Copy)]
pub struct Store {
    /// What was saved last. None where nothing was.
    pub saved: Option<Saved>,
    /// What is in store. None where nothing is.
    pub covered: Option<Saved>,
}

impl Store {
    /// Nothing was saved.
    pub fn new() -> Store
        ensures { result ≡ none_stored }
    {
        Store {
            saved: None,
            covered: None,
        }
    }

    /// The token of the key group with this index that is in store, with its number. 0 and 0 where nothing is.
    pub fn pair(&self, keygroup: usize) -> (u32, u32)
        requires { keygroup < STATE_KEYGROUPS }
        ensures { result ≡ pair_of self.now.covered keygroup }
    {
        match &self.covered {
            None => (0, 0),
            Some(saved) => saved.pair(keygroup),
        }
    }

    /// Whether the token of the sender of this key group and the number used last are in store.
    pub fn covers(&self, keygroup: usize, sender: &Sender) -> bool
        requires { keygroup < STATE_KEYGROUPS }
        ensures { IsTrue result ↔ IsCovered keygroup sender.now self.now.covered }
    {
        match &self.covered {
            None => false,
            Some(saved) => is_behind(saved.pair(keygroup), sender.standing()),
        }
    }

    /// The same, and half of what was reserved is left.
    pub fn is_ahead(&self, keygroup: usize, sender: &Sender) -> bool
        requires { keygroup < STATE_KEYGROUPS }
        ensures { IsTrue result ↔ IsAheadIn self.now.covered keygroup sender.now }
    {
        match &self.covered {
            None => false,
            Some(saved) => saved.is_ahead(keygroup, sender),
        }
    }
}

impl Saved {
    /// The token of the key group with this index, with its number.
    pub fn pair(&self, keygroup: usize) -> (u32, u32)
        requires { keygroup < STATE_KEYGROUPS }
        ensures { result ≡ pair_in self.now.state.words keygroup }
    {
        pair_in(&self.state.words, keygroup)
    }

    fn is_ahead(&self, keygroup: usize, sender: &Sender) -> bool
        requires { keygroup < STATE_KEYGROUPS }
        ensures { IsTrue result ↔ IsAheadIn (Some self.now) keygroup sender.now }
    {
        let standing = sender.standing();
        let pair = self.pair(keygroup);
        is_behind(pair, standing) && has_half_left(standing, pair, self.ahead)
    }
}

/// The pair of the key group with this index in a state.
pub fn pair_in(words: &[u32; 72], keygroup: usize) -> (u32, u32)
    requires { keygroup < STATE_KEYGROUPS }
    ensures { result ≡ pair_in words.now keygroup }
{
    (words[keygroup], words[STATE_KEYGROUPS + keygroup])
}

/// Whether half of what was reserved is left behind the standing, where the token is the same.
fn has_half_left(standing: (u32, u32), pair: (u32, u32), ahead: u32) -> bool
    ensures { IsTrue result ↔ IsHalfLeft standing pair ahead }
{
    let (token, used) = standing;
    let (stored, number) = pair;
    if token != stored || number == LAST_NUMBER {
        return true;
    }
    u64::from(ahead) <= 2 * u64::from(number.saturating_sub(used))
}

/// Of two tokens with a number each, the one of the later token, or of the same with the greater number.
pub fn later_of(one: (u32, u32), other: (u32, u32)) -> (u32, u32)
    ensures { result ≡ later_of one other }
{
    if one.0 < other.0 {
        return other;
    }
    if other.0 < one.0 {
        return one;
    }
    if one.1 < other.1 { other } else { one }
}
