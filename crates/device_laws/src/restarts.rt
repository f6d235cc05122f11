//! Laws of a publisher that is started again, each the contract of a function that does nothing.
ghost use Rattle.std.specs.Prelude.{◌≡◌, ◌≢◌, ◌∷◌, ◌++◌, ℕ, List};
ghost use Rattle.ps_config.specs.declared.parts.ReadGroupPart.{ReadGroupPart};
ghost use Rattle.reader_group.specs.Agreeing.{MemberIs};
ghost use Rattle.reader_group.specs.Arrivals.{Mark};
ghost use Rattle.session_laws.specs.Plays.{its_setting, its_way};
ghost use Rattle.device_laws.specs.Devices.{HoldsWhole, IsCounted, MemoryHolds, member_in, play_of};
ghost use Rattle.device_laws.specs.Placed.{AreAllNear, ComesPlaced};
ghost use Rattle.device_laws.specs.Publishing.{IsPublisherLife, PublisherLife, PublisherStep};
ghost use Rattle.device_laws.specs.Restarts.{GivesAt, GoesOnAfter, HasGiven};
ghost use Rattle.device_laws.specs.Since.{ArePairedSince, ComesAnsweredSince};
ghost use Rattle.device_laws.specs.Subscribing.{SubscriberLife, SubscriberStep, events};

use dataset_reader::each_step_keeps_records;
use device::no_sender_falls_back;
use group_laws::a_ring_makes_senders_of_its_key_group;
use session_laws::what_the_laws_below_say;

/// A life of a publisher ends anywhere. Another goes on by `resume` or `resume_with`, behind what `standing` told last or more, before
/// it gives the key group a number (`GoesOnAfter`). So no token and number is given twice over both: neither in one of them (`once`)
/// nor in the second again (`restarted`). It is so whatever else is called in either, of publishers of two configurations too.
pub fn no_number_is_given_again_after_a_restart()
    ensures once { (text : List ℕ) (life : PublisherLife) (keygroup : ℕ)
        (since before : List PublisherStep) (step : PublisherStep) (pair other : ℕ × ℕ)
        → IsPublisherLife text life → life.steps ≡ since ++ step ∷ before
        → GivesAt keygroup life.first step before pair
        → HasGiven keygroup life.first before other → pair ≢ other }
    ensures restarted { (text other : List ℕ) (earlier later : PublisherLife) (keygroup : ℕ)
        (one two : ℕ × ℕ) → IsPublisherLife text earlier → IsPublisherLife other later
        → GoesOnAfter keygroup earlier later → HasGiven keygroup earlier.first earlier.steps one
        → HasGiven keygroup later.first later.steps two → one ≢ two }
{
    no_sender_falls_back();
}

/// A subscriber saw a publisher before it was started again, and after, or another publisher before. Its reader was reset: it was
/// switched off, and on again. Since then its read group took only what the publisher offered in this life. So it holds a row of this
/// life, whatever its read group took before. Before the reset the law of the earlier life speaks of it.
///
/// - whichever list what came before is placed in, there is one of all that came in which each item since the last cut is an answer
///   of the writer in this life (`comes`)
/// - with each such list in which all places are near, what is kept for the reader is what *Records* has of it, with why it waits
///   where it does (`keeps`)
/// - and a row that it holds is the whole row of a version in the history of the writer's data set in this life (`holds`)
pub fn readers_hold_whole_rows_of_the_life_since_their_last_reset()
    ensures comes { (text other : List ℕ) (pl : PublisherLife) (sl : SubscriberLife)
        (readers : ReadGroupPart) (r i g w : ℕ) (before : List SubscriberStep)
        (earlier : List Mark) → ArePairedSince text other pl sl readers r i g w before →
        let p = play_of pl sl readers r i g w in
        ComesPlaced (its_setting p) (its_way p) (events sl.first before r) earlier
        → (list : List Mark) × ComesAnsweredSince p list }
    ensures keeps { (text other : List ℕ) (pl : PublisherLife) (sl : SubscriberLife)
        (readers : ReadGroupPart) (r i g w : ℕ) (before : List SubscriberStep) (list : List Mark)
        → ArePairedSince text other pl sl readers r i g w before →
        let p = play_of pl sl readers r i g w in
        ComesAnsweredSince p list → AreAllNear p list
        → MemberIs (its_way p) list (member_in sl r i) }
    ensures holds { (text other : List ℕ) (pl : PublisherLife) (sl : SubscriberLife)
        (readers : ReadGroupPart) (r i g w : ℕ) (before : List SubscriberStep) (list : List Mark)
        → ArePairedSince text other pl sl readers r i g w before → IsCounted pl →
        let p = play_of pl sl readers r i g w in
        ComesAnsweredSince p list → AreAllNear p list
        → MemoryHolds sl r i (HoldsWhole pl g w) }
{
    a_ring_makes_senders_of_its_key_group();
    what_the_laws_below_say();
    each_step_keeps_records();
}
