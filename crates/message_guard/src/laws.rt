//! What the definitions owe the reader, each law the contract of a function that does nothing.
ghost use Rattle.std.specs.Prelude.{◌≡◌, ℕ, List, Bool};
ghost use Rattle.group_keys.specs.declared.key_set.KeySet.{KeySet};
ghost use Rattle.uadp_header.specs.Headers.{HeaderValue};
ghost use Rattle.message_guard.specs.declared.keys.TokenKeys.{TokenKeys};
ghost use Rattle.message_guard.specs.declared.mode.Mode.{Mode};
ghost use Rattle.message_guard.specs.declared.mode.Mode.TheVariants as modes;
ghost use Rattle.message_guard.specs.declared.pass.Pass1.{Pass1};
ghost use Rattle.message_guard.specs.Acceptance.{Accepted};
ghost use Rattle.message_guard.specs.Opening.{accepts};
ghost use Rattle.message_guard.specs.Senders.{Life, SenderState, SenderStep};
ghost use Rattle.message_guard.specs.Laws.{StreamCancels, StreamKeepsLength, IsReadSecured, SendsItsFront, IsSendersFront, IsPassedOn, IsFound, IsRestored, PassesOpen, LeavesOpen, PassesSigned, PassesAcceptable, AcceptsOnce, AcceptsOnceRenewed, GoesOnToRing, StaysKnown, StaysKnownAt, HasOtherNumbersEach, HaveOtherNumbersOver, HasNumbersFor, HasKeysOfMoments, IsKnownInRing};

/// A payload with the stream added is as long as the payload, and with the stream added once more it is the payload.
pub fn a_stream_added_twice_is_gone()
    ensures again { (mode : Mode) (keys : TokenKeys) → StreamCancels mode keys }
    ensures len { (mode : Mode) (keys : TokenKeys) → StreamKeepsLength mode keys }
{}

/// A written header that carries a security header is read with it, whatever follows: so a sender may protect the
/// datagram, and a receiver reads of it what the sender's front said.
pub fn a_written_header_carries_the_front()
    ensures written { (h : HeaderValue) → IsReadSecured h }
    ensures sent { (mode : Mode) (s : SenderState) → SendsItsFront mode s }
    ensures front { (mode : Mode) (s : SenderState) → IsSendersFront mode s }
{}

/// A datagram that a sender protected is passed by a guard of the same mode that has the sender's key set and accepts
/// the number; what the guard found of it is what the sender's front said. A guard of the same mode and first block that
/// has the key set restores its payload.
#[tactic(auto, using(crate::proofs::Restoring::sent_is_passed, crate::proofs::Restoring::sent_is_found, crate::proofs::Restoring::payload_restored))]
pub fn a_protected_datagram_is_opened()
    ensures passed { (mode : Mode) (s : SenderState) → IsPassedOn mode s }
    ensures found { (mode : Mode) (s : SenderState) → IsFound mode s }
    ensures restored { (mode : Mode) (s : SenderState) → IsRestored mode s }
{}

/// Without security a guard passes what has no security header, or one that says neither signed nor encrypted, and leaves
/// it as it is.
pub fn an_open_datagram_is_left_as_it_is()
    ensures passed { (keys : List TokenKeys) (accepted : Accepted) → PassesOpen keys accepted }
    ensures left { (keys : List TokenKeys) → LeavesOpen keys }
    ensures accepted { (before : Accepted) (pass : Pass1)
        → accepts modes.None pass before ≡ before }
{}

/// A secured guard passes only what is signed under the keys of its token, with a token and a number that it accepts.
#[tactic(auto, using(crate::proofs::Telling::passed_is, crate::proofs::Telling::passed_acceptable))]
pub fn a_passed_datagram_is_signed_and_acceptable()
    ensures signed { (mode : Mode) (keys : List TokenKeys) → PassesSigned mode keys }
    ensures acceptable { (mode : Mode) (keys : List TokenKeys) → PassesAcceptable mode keys }
{}

/// No pair of token and number is accepted twice, where each was acceptable when it came, also where the guard is renewed in between.
#[tactic(auto, using(crate::proofs::Once::accepted_once, crate::proofs::Once::called_once))]
pub fn no_pair_is_accepted_twice()
    ensures once { (keys : List TokenKeys) → AcceptsOnce keys }
    ensures renewed { (first : List TokenKeys) → AcceptsOnceRenewed first }
{}

/// No two datagrams of a sender are read with the same token and number, whatever the moments that it turns to and whatever the
/// rings that renew it, where each call keeps its conditions and each datagram has a front of its own.
pub fn no_token_and_number_come_twice()
    ensures { (s : SenderState) (steps : List SenderStep) → HasOtherNumbersEach s steps }
{}

/// The same over restarts: no two datagrams of all lives of a device are read with the same token and number, where each life
/// begins behind where the one before ended.
pub fn no_token_and_number_come_twice_over_restarts()
    ensures { (lives : List Life) → HaveOtherNumbersOver lives }
{}

/// A sender that isn't spent may give 1,024 more fronts, whatever the moments that it turns to in between.
pub fn an_unspent_sender_has_1024_numbers()
    ensures { (s : SenderState) (steps : List SenderStep) → HasNumbersFor s steps }
{}

/// A sender that is renewed goes on to the keys of the other ring, where a set with a higher token has come in it; and where the
/// ring has the token in use with the keys in use, a guard of it has them, whatever ring the sender had before, and the guard has
/// the sender's keys at each moment that it turns to.
pub fn a_renewed_sender_has_keys_of_its_ring()
    ensures goes_on { (s : SenderState) (sets : List KeySet) → GoesOnToRing s sets }
    ensures known { (s : SenderState) (sets : List KeySet) → StaysKnown s sets }
    ensures turned { (s : SenderState) (now : ℕ) → StaysKnownAt s now }
{}

/// A sender of accepted sets that has the keys of the set whose moment came last has them also once it turns to a later moment.
pub fn a_sender_has_the_keys_of_the_moment()
    ensures { (long : Bool) (s : SenderState) → HasKeysOfMoments long s }
{}

/// A guard of a sender's sets, whose tokens rise, knows the keys that the sender has of them at a moment.
pub fn a_guard_of_the_ring_has_the_senders_keys()
    ensures { (s : SenderState) (now : ℕ) → IsKnownInRing s now }
{}
