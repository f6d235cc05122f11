//! What the definitions owe the reader, each law the contract of a function that does nothing.
ghost use Rattle.std.specs.Prelude.{◌≡◌, ◌↔◌, ℕ, ◌≤◌, List, Ok};
ghost use Rattle.group_keys.specs.declared.key_set.KeySet.{KeySet};
ghost use Rattle.group_keys.specs.declared.ring.Ring.{Ring};
ghost use Rattle.group_keys.specs.Ring.{key_sets};
ghost use Rattle.key_service.specs.Answers.{answer};
ghost use Rattle.key_service.specs.Laws.{IsCovered, IsServedRing};
ghost use Rattle.key_service.specs.Pulled.{later, pulled_sets};
ghost use Rattle.key_service.specs.Reading.{reply_in};
ghost use Rattle.key_service.specs.Spelling.{reply_bytes};
ghost use Rattle.key_service.specs.declared.service.Keys.{Keys};
ghost use Rattle.key_laws.specs.Lower.{AreNoHigher, ChangesNothingSent};
ghost use Rattle.key_laws.specs.Pulled.{GivesPullersGuards, GivesRingsKeys, HasSendersKeys, IsCoveredSender, IsPublisherAt, IsPulledRing, IsPullersGuard, IsReadersGuard, OpensMade, PassesMade, RestoresMade, StaysPublisher, UsesKeysAt};
ghost use Rattle.key_laws.specs.Renewing.{IsNotAhead, TakesOn};
ghost use Rattle.key_laws.specs.Rising.{AcceptsNoLowerToken};
ghost use Rattle.message_guard.specs.declared.guard.Guard.{Guard};
ghost use Rattle.message_guard.specs.declared.keys.TokenKeys.{TokenKeys};
ghost use Rattle.message_guard.specs.declared.mode.Mode.{Mode};
ghost use Rattle.message_guard.specs.Senders.{KeepsToken, SenderState, SenderStep, after, renewed, turned};

/// A puller's guard of the sender's mode and first block answers Ok on what is protected with the ring's keys of a covered moment,
/// wherever it accepts the number, and decrypts it to the payload.
pub fn a_pullers_guard_opens_what_was_sent()
    ensures { (ring : Ring) (now count moment : ℕ) (s : SenderState) (mode : Mode) (guard : Guard)
        → IsCoveredSender ring now count moment s → OpensMade ring now count mode s guard }
{}

/// A guard over a ring that a puller makes of the answer is a puller's guard, whatever the puller's clock told when it was answered,
/// and so is a guard that is renewed by such a ring. `pulled` gives such rings, and so do `pulled_at` and `pulled_for`.
pub fn a_guard_of_a_pulled_ring_is_a_pullers_guard()
    ensures guard { (ring : Ring) (now count : ℕ) (pulled : Ring)
        → IsPulledRing (answer ring now 0 count) pulled → GivesPullersGuards ring now count pulled }
    ensures pulled { (keys : Keys) (ring : Ring)
        → key_sets ring ≡ pulled_sets keys → IsPulledRing keys ring }
    ensures pulled_at { (keys : Keys) (clock : ℕ) (ring : Ring)
        → key_sets ring ≡ pulled_sets (later clock keys) → IsPulledRing keys ring }
{}

/// A ring that a puller makes of what was read of the bytes of a served ring's answer is one that it makes of the answer, and a guard
/// over it is a puller's guard.
pub fn a_readers_guard_is_a_pullers_guard()
    ensures ring { (ring : Ring) (now count : ℕ) (back : Keys) (pulled : Ring) → IsServedRing ring
        → reply_in (reply_bytes (answer ring now 0 count)) ≡ Ok back
        → IsPulledRing back pulled → IsPulledRing (answer ring now 0 count) pulled }
    ensures guard { (ring : Ring) (now count first_block : ℕ) (mode : Mode) (guard : Guard)
        → IsServedRing ring → IsReadersGuard ring now count mode first_block guard
        → IsPullersGuard ring now count mode first_block guard }
{}

/// What is protected with the ring's keys of a covered moment is passed by a guard of its mode, with the pulled keys, that accepts its
/// number, and one of its mode and of the sender's first block restores its payload.
pub fn a_guard_of_a_pulled_ring_opens_what_was_sent()
    ensures passed { (ring : Ring) (now count moment : ℕ) (s : SenderState) (mode : Mode)
        → IsCoveredSender ring now count moment s → PassesMade ring now count mode s }
    ensures restored { (ring : Ring) (now count moment : ℕ) (s : SenderState) (mode : Mode)
        → IsCoveredSender ring now count moment s → RestoresMade ring now count mode s }
{}

/// The pulled keys have those of a sender that uses the ring's keys of a covered moment, under their token.
pub fn a_guard_of_a_pulled_ring_has_the_senders_keys()
    ensures { (ring : Ring) (now count moment : ℕ) (s : SenderState)
        → IsCoveredSender ring now count moment s → HasSendersKeys ring now count s }
{}

/// The publisher's sender of a served ring, whatever is sent with it while its moments don't fall, and where nothing but its own ring renews it, is the
/// publisher's sender at the last of these.
pub fn a_publishers_sender_goes_on()
    ensures { (ring : Ring) (s : SenderState) → StaysPublisher ring s }
{}

/// A sender that is renewed by a served ring is, once it turned to a moment, the publisher's at it, exactly where the ring takes it on
/// at the moment, and so a sender at a covered moment. The ring takes it on where it has the token in use, with the keys in use, and
/// this isn't above its token of the moment. A sender that uses the ring's keys is the publisher's as soon as it is renewed.
pub fn a_renewed_sender_is_the_publishers()
    ensures exactly { (ring : Ring) (moment : ℕ) (s : SenderState) → IsServedRing ring
        → TakesOn ring moment s
        ↔ IsPublisherAt ring moment (turned (renewed s (key_sets ring)) moment) }
    ensures covered { (ring : Ring) (now count moment : ℕ) (s : SenderState) → IsServedRing ring
        → IsCovered (key_sets ring) now count moment → TakesOn ring moment s
        → IsCoveredSender ring now count moment (turned (renewed s (key_sets ring)) moment) }
    ensures kept { (ring : Ring) (moment : ℕ) (s : SenderState) → IsServedRing ring
        → KeepsToken s (key_sets ring) → IsNotAhead ring moment s → TakesOn ring moment s }
    ensures at_once { (ring : Ring) (moment : ℕ) (s : SenderState) → UsesKeysAt ring moment s
        → IsPublisherAt ring moment (renewed s (key_sets ring)) }
{}

/// A sender that uses, so long after the answer, the keys of a ring that a puller makes of it, by the puller's clock, uses those of
/// the service's ring, where that moment is covered.
pub fn a_pullers_sender_uses_the_rings_keys()
    ensures { (ring : Ring) (now count : ℕ) (pulled : Ring) → IsServedRing ring
        → GivesRingsKeys ring now count pulled }
{}

/// Tokens never fall, whatever rings renew sender and guard: neither the one under which a sender protects, over any list of its calls,
/// nor those of the pairs that a guard accepts, in the order in which it accepts them, where each was acceptable when it came.
pub fn tokens_never_fall()
    ensures sender { (s : SenderState) (steps : List SenderStep)
        → s.keys.token ≤ (after s steps).keys.token }
    ensures guard { (first : List TokenKeys) → AcceptsNoLowerToken first }
{}

/// A ring without a higher token than the one in use changes nothing that is sent, but that no later token of the ring before comes: the
/// sender keeps token, keys and number at whichever moment, and makes the security headers and datagrams that it would make if it came
/// to no moment and no ring, until a ring brings a higher token.
pub fn a_ring_of_lower_tokens_changes_nothing_sent()
    ensures { (s : SenderState) (sets : List KeySet) → AreNoHigher s.keys.token sets
        → ChangesNothingSent s sets }
{}
