//! Laws of devices whose groups are secured, each the contract of a function that does nothing.
ghost use Rattle.std.specs.Prelude.{◌≡◌, ◌<◌, ℕ, List, length, map, All, Some};
ghost use Rattle.group_keys.specs.declared.key_set.KeySet.{KeySet};
ghost use Rattle.ps_config.specs.declared.parts.Config.{Config};
ghost use Rattle.ps_config.specs.declared.parts.ReadGroupPart.{ReadGroupPart};
ghost use Rattle.ps_config.specs.Rings.{key_set};
ghost use Rattle.ps_config.specs.Sound.{IsSound};
ghost use Rattle.reader_group.specs.Settings.{keygroup_at};
ghost use Rattle.writer_group.specs.Parts.{group_at};
ghost use Rattle.session_model.specs.Deeds.{group_past};
ghost use Rattle.turn_laws.specs.Makers.{AreOwnTurns, IsMadeBySender, IsSigning};
ghost use Rattle.device_laws.specs.Devices.{ArePaired, HasSentFew, HoldsNamed, IsCounted, MemoryHolds};
ghost use Rattle.device_laws.specs.Deeds.{AreUnresumed, deeds_in};
ghost use Rattle.device_laws.specs.Publishing.{AreOwnRings, IsPublisherLife, PublisherLife, config_in};
ghost use Rattle.device_laws.specs.Plain.{IsPlainPair};
ghost use Rattle.device_laws.specs.Pulled.{IsKnownBy, IsPulledPair, MakeRing};
ghost use Rattle.device_laws.specs.Ringed.{ComesRinged, HoldsRinged, IsRingedPair, ReadsRinged};
ghost use Rattle.device_laws.specs.Signed.{IsSignedPair, ReadsSigned, signing_of};
ghost use Rattle.device_laws.specs.Subscribing.{SubscriberLife};
ghost use Rattle.device_laws.specs.Turning.{past_in};

use group_laws::{a_matched_reader_reads_its_writer, a_ring_makes_senders_of_its_key_group};
use session_laws::{
    a_matched_reader_holds_what_was_sent, signed_readers_have_their_records,
    what_the_laws_below_say,
};
use turn_laws::{numbers_rise_with_places_over_all_turns, what_came_signed_was_made_by_its_sender};

/// The deeds of a publisher over its calls are such as the laws of senders speak of. Each turn of a group is one by the
/// definitions, with the sender that its key group had then (`own`), and each group lived through the same (`pasts`).
pub fn each_turn_of_a_publisher_has_its_sender()
    ensures own { (text : List ℕ) (life : PublisherLife) → IsPublisherLife text life
        → AreUnresumed life.steps → AreOwnRings (config_in life) life.steps
        → AreOwnTurns (config_in life) (deeds_in life) }
    ensures pasts { (text : List ℕ) (life : PublisherLife) (g : ℕ) → IsPublisherLife text life
        → AreUnresumed life.steps → g < length (config_in life).group
        → group_past (config_in life) g (deeds_in life) ≡ past_in life g }
{
    a_ring_makes_senders_of_its_key_group();
}

/// Of two devices that share a key group, the publisher's sender made what the read group took (`signing`, `made`). A matched
/// reader that goes by numbers reads by *Records*, however many data frames the writer sent, where the places of its chunks are
/// near (`records`).
pub fn what_came_signed_was_made_by_the_publisher()
    ensures signing { (text other : List ℕ) (pl : PublisherLife) (sl : SubscriberLife)
        (readers : ReadGroupPart) (r i g w k : ℕ)
        → IsSignedPair text other pl sl readers r i g w k
        → IsSigning (signing_of pl sl readers r i g w k) }
    ensures made { (text other : List ℕ) (pl : PublisherLife) (sl : SubscriberLife)
        (readers : ReadGroupPart) (r i g w k : ℕ)
        → IsSignedPair text other pl sl readers r i g w k
        → IsMadeBySender (signing_of pl sl readers r i g w k) }
    ensures records { (text other : List ℕ) (pl : PublisherLife) (sl : SubscriberLife)
        (readers : ReadGroupPart) (r i g w k : ℕ)
        → IsSignedPair text other pl sl readers r i g w k → ReadsSigned pl sl readers r i g w k }
{
    a_ring_makes_senders_of_its_key_group();
    numbers_rise_with_places_over_all_turns();
    what_came_signed_was_made_by_its_sender();
}

/// The headline of devices that last: of a reader of a secured group, by numbers or with no numbering, however many data frames
/// its writer sent. Both devices may be renewed with whichever rings, as those that pull their keys from a service are. The rings
/// owe that a token has the same keys in each of them, as long as the policy says. No key group of the publisher was resumed.
///
/// - each item that comes to the reader is an answer of the writer, at its place, each datagram read with the keys that the read
///   group has when it comes (`comes`)
/// - what is kept for the reader is what *Records* has of these items, with why it waits where it does (`keeps`)
/// - a row that it holds is the whole row of a version in the history of the writer's data set: that which the publisher had at the
///   writer's turn whose data frame has the held number, in 16 bits (`holds`)
///
/// The last two ask that the places of the reader's chunks are near, which is so where none comes. With the rings of the
/// configuration paired devices are such (`own`).
pub fn secured_readers_hold_whole_rows_at_any_length()
    ensures comes { (text other : List ℕ) (pl : PublisherLife) (sl : SubscriberLife)
        (readers : ReadGroupPart) (r i g w k : ℕ) (all : List KeySet)
        → IsRingedPair text other pl sl readers r i g w k all
        → ComesRinged pl sl readers r i g w k }
    ensures keeps { (text other : List ℕ) (pl : PublisherLife) (sl : SubscriberLife)
        (readers : ReadGroupPart) (r i g w k : ℕ) (all : List KeySet)
        → IsRingedPair text other pl sl readers r i g w k all
        → ReadsRinged pl sl readers r i g w k }
    ensures holds { (text other : List ℕ) (pl : PublisherLife) (sl : SubscriberLife)
        (readers : ReadGroupPart) (r i g w k : ℕ) (all : List KeySet)
        → IsRingedPair text other pl sl readers r i g w k all → IsCounted pl
        → HoldsRinged pl sl readers r i g w k }
    ensures own { (text other : List ℕ) (pl : PublisherLife) (sl : SubscriberLife)
        (readers : ReadGroupPart) (r i g w k : ℕ) → ArePaired text other pl sl readers r i g w
        → (group_at (config_in pl) g).keygroup ≡ Some k → AreUnresumed pl.steps
        → let all = map key_set (keygroup_at (config_in pl) k).key in
        IsRingedPair text other pl sl readers r i g w k all }
{
    what_the_laws_below_say();
    signed_readers_have_their_records();
}

/// Of such devices a row that any matched reader holds is the whole row of a version in the history of the writer's data set,
/// also where key groups of the publisher were resumed (`holds`). It is so at up to 16,385 data frames, where the tokens of each
/// key group are so few, 16 in all, that some key sets make one ring of them (`IsPulledPair`). The key sets that a configuration
/// gives a key group make such a ring, which has their keys (`own`).
pub fn readers_of_pulled_keys_hold_what_was_published()
    ensures holds { (text other : List ℕ) (pl : PublisherLife) (sl : SubscriberLife)
        (readers : ReadGroupPart) (r i g w k : ℕ) (sets : ℕ → List KeySet)
        → IsPulledPair text other pl sl readers r i g w k sets → IsCounted pl
        → HasSentFew 16385 pl g w → MemoryHolds sl r i (HoldsNamed pl g w) }
    ensures own { (config : Config) (n : ℕ) → IsSound config → n < length config.keygroup →
        let sets = map key_set (keygroup_at config n).key in
        MakeRing config n sets × All (IsKnownBy sets) sets }
{
    a_matched_reader_reads_its_writer();
    a_matched_reader_holds_what_was_sent();
}

/// So it is for a read group without security, where the publisher has other groups, whose rings are such (`IsPlainPair`).
pub fn plain_readers_beside_pulled_keys_hold_what_was_published()
    ensures { (text other : List ℕ) (pl : PublisherLife) (sl : SubscriberLife)
        (readers : ReadGroupPart) (r i g w : ℕ) (sets : ℕ → List KeySet)
        → IsPlainPair text other pl sl readers r i g w sets → IsCounted pl
        → HasSentFew 16385 pl g w → MemoryHolds sl r i (HoldsNamed pl g w) }
{
    a_matched_reader_reads_its_writer();
    a_matched_reader_holds_what_was_sent();
}
