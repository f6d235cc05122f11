//! Laws of read groups, each the contract of a function that does nothing. The plain reading of what befell a group is `plain`, as
//! the contracts of `ReaderGroup` say; lists of what befell it have the latest first.
ghost use Rattle.std.specs.Prelude.{ℕ, List};
ghost use Rattle.reader_group.specs.Agreeing.{Agrees, NearByNumbers, EachSecuredAgrees};
ghost use Rattle.reader_group.specs.Arrivals.{Way, AreTold};
ghost use Rattle.reader_group.specs.Asked.{HasOtherPublisher, HasOtherGroup, HasOtherVersion, HasOtherClass, RefusesOthers, PassesAsked};
ghost use Rattle.reader_group.specs.BadParts.{BadPartsLeave};
ghost use Rattle.reader_group.specs.Complete.{WholesAreHeld};
ghost use Rattle.reader_group.specs.Confirmed.{RowsAreConfirmed};
ghost use Rattle.reader_group.specs.Handing.{EachHandsOn, MessagesComeBack, EachChunkComesBack, EachSlotComesBack};
ghost use Rattle.reader_group.specs.Numbered.{HaveNumbers, HaveTheirNumbers};
ghost use Rattle.reader_group.specs.Plain.{Setting, PlainGroup, Event, opening, step};
ghost use Rattle.reader_group.specs.Renewing.{GroupCall, IsPlain, TakesNoPairTwice, reading};
ghost use Rattle.reader_group.specs.Signed.{TakesSignedAlone};
ghost use Rattle.reader_group.specs.Traces.{LeavesNoTrace};

use dataset_reader::each_step_keeps_records;
use message_guard::a_passed_datagram_is_signed_and_acceptable;

/// A datagram is refused as another's where a header was read of it that carries another publisher than the read group asks for,
/// or another group, version of the group or class id where it asks for one, or none of it; whichever keys the group has and
/// whatever it accepted. One whose header carries all that is asked for isn't refused as another's.
pub fn what_is_not_asked_for_is_not_ours()
    ensures publisher { RefusesOthers HasOtherPublisher }
    ensures group { RefusesOthers HasOtherGroup }
    ensures version { RefusesOthers HasOtherVersion }
    ensures class_id { RefusesOthers HasOtherClass }
    ensures asked { PassesAsked }
{}

/// What a secured group takes is signed under a key of its ring.
pub fn what_a_secured_group_takes_is_signed()
    ensures { TakesSignedAlone }
{
    a_passed_datagram_is_signed_and_acceptable();
}

/// Datagrams that a read group refuses leave no trace: it is where it is without them.
pub fn refused_datagrams_leave_no_trace()
    ensures { (setting : Setting) (events : List Event) → LeavesNoTrace setting events }
{}

/// Where no ring renews a read group, its reading is the plain reading of what befell it.
pub fn a_group_that_is_not_renewed_has_its_plain_reading()
    ensures { (setting : Setting) (events : List Event) → IsPlain setting events }
{}

/// A secured read group takes no pair of token and number twice, whichever rings renew it in between.
pub fn a_renewed_group_takes_no_pair_twice()
    ensures { (setting : Setting) (calls : List GroupCall) → TakesNoPairTwice setting calls }
{}

/// A key frame that comes as the one part for an enabled reader, in a datagram that the group takes, is held: by numbers with
/// its number where it may follow what came before, and with no numbering always.
pub fn a_lone_key_frame_is_held()
    ensures { WholesAreHeld }
{}

/// Beside a row that a reader holds stands a number of 16 bits where it goes by the numbers of messages, and none where it has no
/// numbering: in the plain reading, before anything, behind each step, and whichever rings renew the group.
pub fn each_held_row_has_its_number()
    ensures plain { (setting : Setting) (events : List Event) → HaveTheirNumbers setting events }
    ensures opened { (setting : Setting) → HaveNumbers setting (opening setting) }
    ensures stepped { (setting : Setting) (group : PlainGroup) (event : Event)
        → HaveNumbers setting group → HaveNumbers setting (step setting group event) }
    ensures renewed { (setting : Setting) (calls : List GroupCall)
        → HaveNumbers setting (reading setting calls) }
{}

/// In the plain reading a reader holds a row exactly where there is a moment at which its row was confirmed, and that is the moment
/// at which one of the datagrams came.
pub fn each_held_row_was_confirmed()
    ensures { (setting : Setting) (events : List Event) → RowsAreConfirmed setting events }
{}

/// A part that can't be read leaves its reader, but for the message that chunks are joined to, and leaves that too where it is no
/// chunk.
pub fn a_bad_part_leaves_its_reader()
    ensures { BadPartsLeave }
{}

/// Of a datagram that a sender spelled, and protected where the group is secured, a group that takes it has for its readers what
/// was spelled: with a list of ids the messages that were laid out, each of fewer than 65,536 bytes, one for one and in order; with
/// a chunk's id the chunk; and in a fixed layout, whose slots lie apart, for each reader what was laid at its slot, with zeros
/// behind it.
pub fn what_is_spelled_is_handed_on()
    ensures payload { EachHandsOn }
    ensures messages { (header : List ℕ) (parts : List (ℕ × List ℕ))
        → MessagesComeBack header parts }
    ensures chunk { EachChunkComesBack }
    ensures slots { EachSlotComesBack }
{}

/// Places that rise with their numbers, and by at most as much, are near where the numbers are.
pub fn places_are_near_where_their_numbers_are()
    ensures { (pairs : List (ℕ × ℕ)) → NearByNumbers pairs }
{}

/// The pairs of token and number that a group has accepted are told by the datagrams alone.
pub fn accepted_pairs_are_told_by_datagrams()
    ensures { (setting : Setting) (events : List Event) → AreTold setting events }
{}

/// Where its messages, if it goes by numbers, and its chunks have places that are near, a reader of the plain reading is what
/// *Arrivals* and *Records* say of it, whichever way its places are told.
pub fn near_readers_have_their_records()
    ensures { (setting : Setting) (way : Way) (events : List Event) → Agrees setting way events }
{
    each_step_keeps_records();
}

/// In a secured group the places of a reader that goes by numbers needn't be near, but for those of chunks: it is enough that they
/// rise with the numbers that the sender gave its datagrams, under each token, and that no items came but of what was sent so.
pub fn secured_readers_have_their_records()
    ensures { (sent : ℕ → List (ℕ × ℕ)) → EachSecuredAgrees sent }
{
    each_step_keeps_records();
}
