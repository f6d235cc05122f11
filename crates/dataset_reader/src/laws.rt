//! Laws of what a reader keeps, each the contract of a function that does nothing. What a reader keeps is `kept_by`, and what a
//! message and a cut do to it are `frame_case` and `cut_kept`, as the contract of `Reader` says.
ghost use Rattle.std.specs.Prelude.{◌≡◌, ◌≢◌, ℕ, List, [], ◌∷◌, Option, Some, None};
ghost use Rattle.pubsub_model.specs.declared.reading.Why.{Why as AnyWhy};
ghost use Rattle.pubsub_model.specs.Records.{Item, Arrival, Came, Cut, breaks};
ghost use Rattle.frame_codec.specs.Frames.{Frame as AnyFrame, Alive};
ghost use Rattle.frame_codec.specs.Carrying.{content_of};
ghost use Rattle.dataset_reader.specs.declared.took.Numbering.{Numbering as AnyNumbering};
ghost use Rattle.dataset_reader.specs.declared.took.Outcome.{Outcome as AnyOutcome};
ghost use Rattle.dataset_reader.specs.Kept.{Kept, fresh, cut_kept};
ghost use Rattle.dataset_reader.specs.Cases.{frame_case};
ghost use Rattle.dataset_reader.specs.Answers.{BeginsEmpty, IsOlder, IsJump, TellsCause, WaitsFor, CountsBreak};
ghost use Rattle.dataset_reader.specs.Keeping.{Keeps, KeepsUnnumbered, NumbersItsRow, IsMessageOf, IsOfMajor, IsNoItem, IsReading, Event, AreShort, AreArrivals, AreNear, AreNearInEach, kept_after, came_on, with_jumps, and_broken};
ghost use Rattle.dataset_reader.specs.Passed.{AreCounted, passed_in};

use crate::took::{Numbering, Outcome};

/// Over every list of frames and cuts a reader with numbering by message keeps what *Records* says of the arrivals among them,
/// where their places are near in each stretch without a cut, a jump being one. A frame of another major version, and one without
/// a number, is no arrival.
pub fn each_list_keeps_records()
    ensures { (major : ℕ) (events : List Event) (arrivals : List Arrival)
        → AreArrivals Numbering.Message major events arrivals → AreNearInEach (with_jumps arrivals)
        → Keeps (with_jumps arrivals) (kept_after Numbering.Message major events) }
{}

/// Every list of frames with numbers of 16 bits, and of cuts, has its arrivals.
pub fn each_list_has_arrivals()
    ensures { (numbering : AnyNumbering) (major : ℕ) (events : List Event) → AreShort events
        → (arrivals : List Arrival) × AreArrivals numbering major events arrivals }
{}

/// Over every list of frames and cuts a reader with no numbering keeps the row of the last key frame since the cut.
pub fn each_unnumbered_list_keeps_the_last_whole()
    ensures { (major : ℕ) (events : List Event) (arrivals : List Arrival)
        → AreArrivals Numbering.Unnumbered major events arrivals
        → KeepsUnnumbered arrivals (kept_after Numbering.Unnumbered major events) }
{}

/// Over every list of frames and cuts a reader with numbering by message has a number exactly where it holds a row.
pub fn each_list_numbers_its_row()
    ensures list { (major : ℕ) (events : List Event)
        → NumbersItsRow (kept_after Numbering.Message major events) }
    ensures frame { (major : ℕ) (kept : Kept) (message : AnyFrame) (stamp : Option ℕ)
        → NumbersItsRow kept
        → NumbersItsRow (frame_case Numbering.Message major kept message stamp).0 }
    ensures cut { (kept : Kept) (why : AnyWhy) → NumbersItsRow (cut_kept why kept) }
{}

/// What is no item changes nothing: by numbers a frame of another major version and one without a number, and with no numbering
/// a frame of another major version and a delta frame.
pub fn no_item_changes_nothing()
    ensures { (numbering : AnyNumbering) (major : ℕ) (kept : Kept) (message : AnyFrame)
        (stamp : Option ℕ)
        → IsNoItem numbering major message → (frame_case numbering major kept message stamp).0
        ≡ kept }
{}

/// The break that an answer tells of is exactly the one that *Records* finds at the item, where places are near.
pub fn answers_tell_each_break()
    ensures { (major : ℕ) (arrivals : List Arrival) (kept : Kept) (item : Item) (message : AnyFrame)
        → IsMessageOf major item.frame message → AreNear (came_on arrivals item)
        → Keeps arrivals kept
        → let took = (frame_case Numbering.Message major kept message item.stamp).1 in
        breaks (came_on arrivals item) ≡ and_broken took.broke (breaks arrivals) }
{}

/// Where places are near in each stretch without a cut, a jump being one, a reader keeps what *Records* says of all that came.
pub fn a_run_keeps_records()
    ensures { (major : ℕ) (arrivals : List Arrival) (kept : Kept)
        → IsReading Numbering.Message major arrivals kept
        → AreNearInEach (with_jumps arrivals) → Keeps (with_jumps arrivals) kept }
{}

/// The same by steps: a new reader keeps it, and so does one that kept it, after one more message and after a cut.
pub fn each_step_keeps_records()
    ensures fresh { Keeps [] fresh }
    ensures frame { (major : ℕ) (arrivals : List Arrival) (kept : Kept) (item : Item)
        (message : AnyFrame)
        → IsMessageOf major item.frame message → AreNear (came_on arrivals item)
        → Keeps arrivals kept
        → Keeps (came_on arrivals item)
        (frame_case Numbering.Message major kept message item.stamp).0 }
    ensures cut { (arrivals : List Arrival) (kept : Kept) (why : AnyWhy) → Keeps arrivals kept
        → Keeps (Cut why ∷ arrivals) (cut_kept why kept) }
{}

/// With no numbering a reader keeps the row of the last key frame since the cut, whatever came.
pub fn an_unnumbered_run_keeps_the_last_whole()
    ensures { (major : ℕ) (arrivals : List Arrival) (kept : Kept)
        → IsReading Numbering.Unnumbered major arrivals kept → KeepsUnnumbered arrivals kept }
{}

/// The same by steps.
pub fn each_unnumbered_step_keeps_the_last_whole()
    ensures fresh { KeepsUnnumbered [] fresh }
    ensures frame { (major : ℕ) (arrivals : List Arrival) (kept : Kept) (item : Item)
        (message : AnyFrame)
        → IsOfMajor major message.major → message.content ≡ content_of item.frame
        → KeepsUnnumbered arrivals kept
        → KeepsUnnumbered (Came item ∷ arrivals)
        (frame_case Numbering.Unnumbered major kept message item.stamp).0 }
    ensures cut { (arrivals : List Arrival) (kept : Kept) (why : AnyWhy)
        → KeepsUnnumbered arrivals kept
        → KeepsUnnumbered (Cut why ∷ arrivals) (cut_kept why kept) }
{}

/// Each answer tells its cause in the message and in what the reader kept, and what it keeps then. A break is shown where the
/// message has another number than the one that was due, and it is counted exactly then. Before its first record a reader with
/// numbering by message holds no row.
pub fn each_answer_has_its_cause()
    ensures cause { (numbering : AnyNumbering) (major : ℕ) (message : AnyFrame) (kept : Kept)
        (stamp : Option ℕ)
        → let after = frame_case numbering major kept message stamp in
        TellsCause numbering major message kept after.0 after.1.outcome }
    ensures waiting { (numbering : AnyNumbering) (major : ℕ) (message : AnyFrame) (kept : Kept)
        (stamp : Option ℕ) (why : AnyWhy)
        → let took = (frame_case numbering major kept message stamp).1 in
        took.outcome ≡ Outcome.Waiting why → WaitsFor kept stamp took.broke why }
    ensures counted { (numbering : AnyNumbering) (major : ℕ) (message : AnyFrame) (kept : Kept)
        (stamp : Option ℕ)
        → let after = frame_case numbering major kept message stamp in
        CountsBreak message kept after.0 after.1.broke }
    ensures fresh { BeginsEmpty fresh }
    ensures frame { (major : ℕ) (kept : Kept) (message : AnyFrame) (stamp : Option ℕ)
        → BeginsEmpty kept
        → BeginsEmpty (frame_case Numbering.Message major kept message stamp).0 }
    ensures cut { (kept : Kept) (why : AnyWhy) → BeginsEmpty (cut_kept why kept) }
{}

/// The counts of what a reader passed over are how many of its answers had each cause, up to 2^64 - 1.
pub fn answers_are_counted()
    ensures { (answers : List AnyOutcome) → AreCounted answers (passed_in answers) }
{}

/// What brings no row, and shows no break, is answered for the first thing that it lacks: the data set's major version; by
/// numbers then a number, and a place newer than the last record's, where its stamp doesn't cut the reader.
pub fn what_is_passed_is_told()
    ensures foreign { (numbering : AnyNumbering) (major got : ℕ) (kept : Kept) (message : AnyFrame)
        (stamp : Option ℕ)
        → message.major ≡ Some got → got ≢ major
        → (frame_case numbering major kept message stamp).1
        ≡ record { outcome = Outcome.WrongMajor got; broke = None } }
    ensures numberless { (major : ℕ) (kept : Kept) (message : AnyFrame) (stamp : Option ℕ)
        → IsOfMajor major message.major → message.number ≡ None
        → (frame_case Numbering.Message major kept message stamp).1
        ≡ record { outcome = Outcome.Unnumbered; broke = None } }
    ensures silent { (major : ℕ) (kept : Kept) (message : AnyFrame) (stamp : Option ℕ)
        → IsOfMajor major message.major → IsOlder kept message → ¬ IsJump kept stamp
        → message.content ≡ Alive
        → (frame_case Numbering.Message major kept message stamp).1
        ≡ record { outcome = Outcome.Alive; broke = None } }
    ensures older { (major : ℕ) (kept : Kept) (message : AnyFrame) (stamp : Option ℕ)
        → IsOfMajor major message.major → IsOlder kept message → ¬ IsJump kept stamp
        → message.content ≢ Alive
        → (frame_case Numbering.Message major kept message stamp).1
        ≡ record { outcome = Outcome.Older; broke = None } }
{}
