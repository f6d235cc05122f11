//! A ring that meets the premises of the laws, and senders that other rings renewed.
ghost use Rattle.std.specs.Prelude.{◌≡◌, [], map, false, true, Some};
ghost use Rattle.group_keys.specs.declared.ring.Ring.{Ring};
ghost use Rattle.group_keys.specs.Faults.{IsAccepted};
ghost use Rattle.group_keys.specs.Ring.{key_sets};
ghost use Rattle.key_service.specs.Answers.{answer};
ghost use Rattle.key_service.specs.Pulled.{IsPullableAt, as_read, later, pulled_sets};
ghost use Rattle.key_service.specs.Laws.{IsCovered};
ghost use Rattle.key_laws.specs.Lower.{AreNoHigher, RenewNoHigher};
ghost use Rattle.key_laws.specs.Pulled.{AreInOrder, AreOfRing, IsCoveredSender, IsMade, IsGuardOver, IsPublisherAt, IsPulledRing, IsPullersGuard, IsReadersGuard, UsesKeysAt, pulled_keys};
ghost use Rattle.key_laws.specs.Renewing.{IsNotAhead, TakesOn};
ghost use Rattle.key_laws.specs.Witness.{IsSmallRing, late_sender, late_steps, other_sender, other_sets, small_calls, small_datagram, small_guard, small_payload, small_sender, small_steps, small_verdict, two_sets};
ghost use Rattle.message_guard.specs.declared.mode.Mode.TheVariants.{Encrypt};
ghost use Rattle.message_guard.specs.Acceptance.{AreAcceptableCalls, is_acceptable};
ghost use Rattle.message_guard.specs.Guards.{IsGuardOf, SaysVerdict};
ghost use Rattle.message_guard.specs.Protection.{keys_in};
ghost use Rattle.message_guard.specs.Senders.{IsSender, KeepsToken, front_value, made_of};

/// Two key sets are accepted, so that `Ring::new` makes a ring of them. A service answers from it; the sender of its publisher is
/// covered by an answer, and makes a datagram, whose number a puller's guard accepts, and it goes on to the second set. A puller whose
/// clock stood at 700 makes a ring of the answer, and of what is read of its bytes; the guard is one over this ring, and the sender uses
/// the keys of it. A guard of these sets accepts numbers under both, with a renewal between them.
pub fn a_small_ring_meets_the_premises()
    ensures accepted { IsAccepted false two_sets }
    ensures publisher { (ring : Ring) → IsSmallRing ring → IsPublisherAt ring 500 small_sender }
    ensures covered { (ring : Ring) → IsSmallRing ring → IsCoveredSender ring 0 2 500 small_sender }
    ensures made { IsMade Encrypt small_sender small_datagram small_payload }
    ensures guard { (ring : Ring) → IsSmallRing ring
        → IsPullersGuard ring 0 2 Encrypt 0 small_guard }
    ensures first_block { small_sender.first_block ≡ 0 }
    ensures none { IsGuardOf [] small_guard }
    ensures acceptable { (ring : Ring) → IsSmallRing ring
        → is_acceptable (pulled_keys ring 0 2) [] small_sender.keys.token small_sender.used ≡ true }
    ensures says { SaysVerdict small_guard (Some (front_value Encrypt small_sender))
        (made_of Encrypt small_sender small_datagram small_payload) small_payload small_verdict }
    ensures pulled_at { (ring : Ring) → IsSmallRing ring → IsPullableAt 700 (answer ring 0 0 2) }
    ensures over { (ring pulled : Ring) → IsSmallRing ring
        → IsPulledRing (answer ring 0 0 2) pulled → IsGuardOver pulled Encrypt 0 small_guard }
    ensures uses { (ring pulled : Ring) → IsSmallRing ring
        → key_sets pulled ≡ pulled_sets (later 700 (answer ring 0 0 2))
        → UsesKeysAt pulled 1200 small_sender }
    ensures read { (ring : Ring) → IsSmallRing ring
        → IsPullableAt 700 (as_read (answer ring 0 0 2)) }
    ensures readers { (ring pulled : Ring) → IsSmallRing ring
        → IsPulledRing (as_read (answer ring 0 0 2)) pulled
        → IsReadersGuard ring 0 2 Encrypt 0 small_guard }
    ensures order { AreInOrder 500 small_steps }
    ensures of_ring { (ring : Ring) → IsSmallRing ring → AreOfRing ring small_steps }
    ensures calls { AreAcceptableCalls (map keys_in two_sets) small_calls }
{}

/// A sender that another ring renewed is covered by the answer, and the ring takes it on at a covered moment under the second set. The
/// publisher's sender of that moment has its token and keys in the ring, and isn't ahead of it; the other ring has no higher token than
/// this, nor has a third that renews it among further steps.
pub fn other_rings_meet_the_premises()
    ensures accepted { IsAccepted false other_sets }
    ensures covered { (ring : Ring) → IsSmallRing ring → IsCoveredSender ring 0 2 500 other_sender }
    ensures takes_on { (ring : Ring) → IsSmallRing ring → TakesOn ring 1500 other_sender }
    ensures covered_then { (ring : Ring) → IsSmallRing ring → IsCovered (key_sets ring) 0 2 1500 }
    ensures publisher { (ring : Ring) → IsSmallRing ring → IsPublisherAt ring 1500 late_sender }
    ensures keeps { (ring : Ring) → IsSmallRing ring → KeepsToken late_sender (key_sets ring) }
    ensures not_ahead { (ring : Ring) → IsSmallRing ring → IsNotAhead ring 1500 late_sender }
    ensures sender { IsSender late_sender }
    ensures lower { AreNoHigher late_sender.keys.token other_sets }
    ensures steps { RenewNoHigher late_sender.keys.token late_steps }
{}
