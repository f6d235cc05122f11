//! What the definitions owe the reader, each law the contract of a function that does nothing.
ghost use Rattle.std.specs.Prelude.{◌≡◌, ℕ, List, Ok};
ghost use Rattle.group_keys.specs.declared.ring.Ring.{Ring};
ghost use Rattle.key_service.specs.Answers.{answer};
ghost use Rattle.key_service.specs.Laws.{HasKeysOfMoment, IsPulledReadBack, IsReply, IsRequest, IsRequestReadBack, IsServedRing, UsesKeyOfMoment, UsesKeysLater};
ghost use Rattle.key_service.specs.Pulled.{as_read, IsPullable, pulled_sets};
ghost use Rattle.key_service.specs.Reading.{reply_in};
ghost use Rattle.key_service.specs.Spelling.{reply_bytes};
ghost use Rattle.key_service.specs.declared.service.Keys.{Keys};

/// What an answer to start 0 is written as is read as keys that a puller can make a ring of. This ring is that of the answer, and
/// for each moment that the answer covers it has the keys that the publisher's ring uses then, under their token, and uses them at
/// that moment on a clock that stood at 0 when it was answered.
pub fn a_written_answer_is_pulled()
    ensures ring { (ring : Ring) (now count : ℕ) → IsServedRing ring
        → IsPulledReadBack (answer ring now 0 count) }
    ensures keys { (ring : Ring) (now count : ℕ) → IsServedRing ring
        → HasKeysOfMoment ring now count (as_read (answer ring now 0 count)) }
    ensures uses { (ring : Ring) (now count : ℕ) → IsServedRing ring
        → UsesKeyOfMoment ring now count (as_read (answer ring now 0 count)) }
{}

/// A written request is read as itself.
pub fn a_written_request_is_read()
    ensures { (group : List ℕ) (start count : ℕ) → IsRequest group start count
        → IsRequestReadBack group start count }
{}

/// A written reply is read as its keys, with the moments of a puller.
#[tactic(auto, using(crate::proofs::Again::reply_again))]
pub fn a_written_reply_is_read()
    ensures { (keys : Keys) → IsReply keys → reply_in (reply_bytes keys) ≡ Ok (as_read keys) }
{}

/// Each answer of a service can be written so that it is read as itself.
pub fn an_answer_is_a_reply()
    ensures { (ring : Ring) (now start count : ℕ) → IsServedRing ring
        → IsReply (answer ring now start count) }
{}

/// A puller can make a ring of an answer that begins at the current key.
pub fn a_current_answer_can_be_pulled()
    ensures { (ring : Ring) (now count : ℕ) → IsServedRing ring
        → IsPullable (answer ring now 0 count) }
{}

/// The ring of an answer that was read back is that of the answer.
pub fn a_read_answer_is_pulled_as_the_answer()
    ensures pullable { (keys : Keys) → IsPullable keys → IsPullable (as_read keys) }
    ensures sets { (keys : Keys) → pulled_sets (as_read keys) ≡ pulled_sets keys }
{}

/// The set that the publisher uses at a covered moment is in the pulled ring, with its token and keys.
pub fn the_keys_of_covered_moments_are_pulled()
    ensures { (ring : Ring) (now count : ℕ) → IsServedRing ring
        → HasKeysOfMoment ring now count (answer ring now 0 count) }
{}

/// A puller whose clock stands at 0 when it is answered uses at each covered moment the keys that the publisher uses then.
pub fn a_puller_uses_the_publishers_keys()
    ensures { (ring : Ring) (now count : ℕ) → IsServedRing ring
        → UsesKeyOfMoment ring now count (answer ring now 0 count) }
{}

/// A puller uses the same keys whatever its clock told when it was answered, as long after.
pub fn a_later_clock_uses_the_same_keys()
    ensures { (keys : Keys) (clock : ℕ) → UsesKeysLater keys clock }
{}
