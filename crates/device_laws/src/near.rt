//! Laws of two devices at any length, also without security, each the contract of a function that does nothing.
ghost use Rattle.std.specs.Prelude.{ℕ, List};
ghost use Rattle.ps_config.specs.declared.parts.ReadGroupPart.{ReadGroupPart};
ghost use Rattle.reader_group.specs.Agreeing.{MemberIs};
ghost use Rattle.reader_group.specs.Arrivals.{Mark};
ghost use Rattle.session_laws.specs.Plays.{its_way};
ghost use Rattle.device_laws.specs.Devices.{ArePaired, HoldsWhole, IsCounted, MemoryHolds, member_in, play_of};
ghost use Rattle.device_laws.specs.Placed.{AreAllNear, ComesAnswered};
ghost use Rattle.device_laws.specs.Publishing.{PublisherLife};
ghost use Rattle.device_laws.specs.Subscribing.{SubscriberLife};

use dataset_reader::each_step_keeps_records;
use group_laws::a_ring_makes_senders_of_its_key_group;
use session_laws::what_the_laws_below_say;

/// The headline of paired devices however many data frames the writer sent, of a reader with security or without.
///
/// - there is a list of what came to it, in which each item is an answer of the writer at its own place: the numbers of each datagram
///   stand for places from that of its answer on (`comes`)
/// - with each such list in which all places are near, what is kept for the reader is what *Records* has of it, with why it waits
///   where it does (`keeps`)
/// - and a row that it holds is the whole row of a version in the history of the writer's data set: that which the publisher had at the
///   writer's turn whose data frame has the held number, in 16 bits (`holds`)
///
/// Near are places of which each is at most 16,384 above and 49,151 below the greatest so far, in each stretch without a cut.
pub fn readers_hold_whole_rows_where_places_are_near()
    ensures comes { (text other : List ℕ) (pl : PublisherLife) (sl : SubscriberLife)
        (readers : ReadGroupPart) (r i g w : ℕ) → ArePaired text other pl sl readers r i g w
        → (list : List Mark) × ComesAnswered (play_of pl sl readers r i g w) list }
    ensures keeps { (text other : List ℕ) (pl : PublisherLife) (sl : SubscriberLife)
        (readers : ReadGroupPart) (r i g w : ℕ) (list : List Mark)
        → ArePaired text other pl sl readers r i g w → let p = play_of pl sl readers r i g w in
        ComesAnswered p list → AreAllNear p list → MemberIs (its_way p) list (member_in sl r i) }
    ensures holds { (text other : List ℕ) (pl : PublisherLife) (sl : SubscriberLife)
        (readers : ReadGroupPart) (r i g w : ℕ) (list : List Mark)
        → ArePaired text other pl sl readers r i g w → IsCounted pl →
        let p = play_of pl sl readers r i g w in
        ComesAnswered p list → AreAllNear p list → MemoryHolds sl r i (HoldsWhole pl g w) }
{
    a_ring_makes_senders_of_its_key_group();
    what_the_laws_below_say();
    each_step_keeps_records();
}
