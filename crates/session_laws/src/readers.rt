//! Readers of a secured read group, datagram by datagram.
ghost use Rattle.std.specs.Prelude.{◌≡◌, true, List};
ghost use Rattle.message_guard.specs.Modes.{is_secured};
ghost use Rattle.reader_group.specs.Agreeing.{ChunksNear, IsWayOf, MemberIs, SendsRise};
ghost use Rattle.reader_group.specs.Arrivals.{Way, goes_by_numbers, marks};
ghost use Rattle.reader_group.specs.Plain.{Event, Setting, member_at, plain};
ghost use Rattle.reader_group.specs.Settings.{setting_of};
ghost use Rattle.session_model.specs.Events.{events};
ghost use Rattle.session_laws.specs.Reading.{first_number_of, way_of};
ghost use Rattle.session_laws.specs.Readers.{Making, SignedAreMade};
ghost use Rattle.session_laws.specs.Witness.{three_plan, three_session};

use crate::laws::what_the_laws_below_say;
use group_laws::the_premises_of_turns_are_met;
use ps_config::an_accepted_configuration_is_sound;
use reader_group::{secured_readers_have_their_records, what_a_secured_group_takes_is_signed};

/// A reader that goes by numbers, of a secured read group, is what *Arrivals* and *Records* say of it, however many messages its
/// writer sends. It asks that each datagram that came with a signature under a key of the ring was made by one sender: with a
/// number under each token that rises with the places of the writer's messages. It asks too that the places of its chunks are
/// near. What comes without such a signature is no matter.
pub fn signed_readers_have_their_records()
    ensures { (m : Making) (setting : Setting) (way : Way) (events : List Event)
        → is_secured setting.setup.mode ≡ true → goes_by_numbers way ≡ true → SendsRise m.sent
        → SignedAreMade m setting way events → IsWayOf setting way events
        → ChunksNear (marks setting way events)
        → MemberIs way (marks setting way events)
        (member_at (plain setting events).members way.index) }
{
    secured_readers_have_their_records();
    what_a_secured_group_takes_is_signed();
}

/// In a session of a signed group, a fixed one and one whose frames come in two chunks, all that is sent comes. Then the
/// premises are met for the reader of the signed group: the session's own sender made what comes with a signature.
pub fn a_sessions_sender_makes_what_is_signed()
    ensures { (m : Making) × SendsRise m.sent
        × SignedAreMade m (setting_of three_plan.config 0)
        (way_of three_plan.config 0 0 (first_number_of three_plan.config 0 0))
        (events three_plan.config 0 three_session) }
{
    what_the_laws_below_say();
    the_premises_of_turns_are_met();
    an_accepted_configuration_is_sound();
}
