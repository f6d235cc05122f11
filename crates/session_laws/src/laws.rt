//! Laws of sessions, each the contract of a function that does nothing.
ghost use Rattle.std.specs.Prelude.{◌≡◌, ◌<◌, ◌≤◌, ◌+◌, ℕ, Bool, true, List, ◌∷◌, ◌++◌, length, Some, AllPairs, filter, is_ok, map};
ghost use Rattle.std.specs.List.Sorted.{IsNonDecreasingBy};
ghost use Rattle.dataset_meta.specs.DataValues.{DataValue};
ghost use Rattle.ua_base.specs.Journal.{Entry};
ghost use Rattle.message_guard.specs.Senders.{HaveOtherNumbers};
ghost use Rattle.pubsub_model.specs.Cadence.{WriterDeed, WriterTurn, HadTurn, cadence, is_data, next_place};
ghost use Rattle.writer_group.specs.declared.sampled.Sampled.{Sampled};
ghost use Rattle.writer_group.specs.Turns.{GroupDeed, GroupTurn};
ghost use Rattle.writer_group.specs.Payloads.{writer_at};
ghost use Rattle.pubsub_states.specs.declared.component.Component.{Component};
ghost use Rattle.reader_group.specs.Agreeing.{MemberIs};
ghost use Rattle.session_model.specs.Steps.{Plan, Step, Pump};
ghost use Rattle.ps_report.specs.declared.closed.Closed.{Closed};
ghost use Rattle.session_model.specs.Closing.{IsClosedAfter, limits, link_end, read_group_end};
ghost use Rattle.session_model.specs.Deeds.{answered_at, deeds, group_past, is_rekeyed, log_at, writer_deeds};
ghost use Rattle.writer_group.specs.Parts.{group_at};
ghost use Rattle.session_model.specs.Answers.{answers_at, taken_by};
ghost use Rattle.session_model.specs.Events.{reader_at};
ghost use Rattle.session_model.specs.Counts.{most_ticks, ticks_in};
ghost use Rattle.session_model.specs.Keeping.{AreSteps, AreStepsOf, IsPlan};
ghost use Rattle.session_laws.specs.Reading.{ReadsByRecords, first_number_of};
ghost use Rattle.session_model.specs.Sends.{IsRun, journal, sent_by};
ghost use Rattle.session_model.specs.States.{state_at};
ghost use Rattle.session_model.specs.Stores.{stores};
ghost use Rattle.session_model.specs.Turns.{deeds_before};
ghost use Rattle.session_laws.specs.Bare.{ClosingCameLast, ClosingGotLast, ClosingGotSinceLast, ClosingTookLast};
ghost use Rattle.session_laws.specs.Below.{Laws};
ghost use Rattle.session_laws.specs.Courses.{HaveOneCourse};
ghost use Rattle.session_laws.specs.Fresh.{BeginWithKeys, IsAnsweredWhole, keyed_turns, protected_by};
ghost use Rattle.session_laws.specs.Headline.{InSession, ComesFrom, IsPublished, PublishesVersion, answered_turn};
ghost use Rattle.session_laws.specs.Newest.{BringsLast, ClosingCame, ClosingGot, ClosingGotSecured, ClosingTook, HoldsClosing, HoldsClosingRow, HoldsNewest, IsLastLogged, IsNewest};
ghost use Rattle.session_laws.specs.Pasts.{settings_at};
ghost use Rattle.session_laws.specs.Plays.{Play, IsPlay, ComesFromWriter, HoldsVersion, its_marks, its_member, its_way};
ghost use Rattle.session_laws.specs.Sessions.{AreVersions, ClosesWith, SamplesRise};
ghost use Rattle.session_laws.specs.Twins.{TwinStep, AddRefused, AreTwins, HasFurther, HasTwins, HaveFurther, firsts, seconds, with_counts_of};

use crate::turning::each_turn_of_a_session_holds;
use group_laws::{
    a_datagram_has_nothing_for_readers_of_other_groups, a_matched_reader_reads_its_writer,
    a_ring_makes_senders_of_its_key_group, each_datagram_is_taken_as_it_was_sent,
    each_part_is_of_what_was_answered,
};
use pubsub_model::answers_have_places_of_their_span;
use reader_group::{
    a_lone_key_frame_is_held, near_readers_have_their_records, refused_datagrams_leave_no_trace,
};
use row_words::cut_rows_have_words;
use writer_group::{
    a_refreshed_writer_sends_a_key_frame, no_token_and_number_come_twice_in_groups,
};

/// A reader that is matched to a writer, where every datagram that its read group takes was made by a turn of some group before,
/// whatever else comes. The writer has sent at most 65,536 data frames, or for what is kept and held 16,385. Then each item that
/// comes to the reader is a frame that the writer answered, whatever datagrams are lost, repeated or reordered, whole or in
/// chunks. What it keeps is what *Records* has of these items. A row that it holds is that of a turn of the writer whose version
/// the writer's log has, by numbers at the held number.
pub fn a_matched_reader_holds_what_was_sent()
    ensures comes { (most : ℕ) (p : Play) → most ≤ 65536 → IsPlay most p → ComesFromWriter p }
    ensures keeps { (p : Play) → IsPlay 16385 p
        → MemberIs (its_way p) (its_marks p) (its_member p) }
    ensures holds { (p : Play) (row : List DataValue) → IsPlay 16385 p
        → (its_member p).kept.row ≡ Some row → HoldsVersion p (its_member p).kept.number row }
{
    what_the_laws_below_say();
}

/// Whatever datagrams of a session are lost, repeated or reordered, each matched reader whose read group takes nothing but what was
/// sent reads by *Records*. Where it goes by numbers it holds exactly the published version that the unbroken run of its arrivals
/// from a key frame names. That is the row of the version that its writer's log has at the held number, cut to the reader's fields.
/// It is the row of the writer's turn whose data frame has this place, cut so.
pub fn matched_readers_hold_published_versions()
    ensures comes { (p : Plan) (r i g w : ℕ) (steps : List Step) → InSession p r i g w steps
        → ComesFrom p r i g w steps }
    ensures reads { (p : Plan) (r i g w : ℕ) (steps : List Step) → InSession p r i g w steps
        → ReadsByRecords p.config r i (first_number_of p.config g w) steps }
    ensures holds { (p : Plan) (r i g w : ℕ) (steps : List Step) (rows : ℕ → ℕ → List DataValue)
        (row : List DataValue) → InSession p r i g w steps → AreVersions p steps rows
        → (reader_at p.config r i steps).kept.row ≡ Some row
        → IsPublished p r i g w steps rows (reader_at p.config r i steps).kept.number row }
{
    what_the_laws_below_say();
}

/// Every data message of a writer stands for one whole version of its data set's single history, and never an older one than its
/// last. Up to each turn with a data frame the writer's frames publish the row of the turn's version, cut to the fields that the
/// data set had then. The versions of its log never fall, where those that are sampled of a data set don't. It is so however many
/// ticks come.
pub fn data_messages_stand_for_versions()
    ensures publish { (limit : ℕ) (p : Plan) (g w : ℕ) (steps : List Step)
        (rows : ℕ → ℕ → List DataValue) (later before : List WriterDeed) (turn : WriterTurn)
        → IsPlan p → AreStepsOf limit p steps → SamplesRise p steps → AreVersions p steps rows
        → w < length (group_at p.config g).writer
        → writer_deeds p g w steps ≡ later ++ HadTurn turn ∷ before
        → let part = writer_at (group_at p.config g) w in
        let s = settings_at (group_at p.config g) w in is_data (answered_turn s before turn) ≡ true
        → PublishesVersion p steps s part.dataset rows before turn }
    ensures never_older { (limit : ℕ) (p : Plan) (g w : ℕ) (steps : List Step) → IsPlan p
        → AreStepsOf limit p steps → SamplesRise p steps → w < length (group_at p.config g).writer
        → IsNonDecreasingBy (λ entry. entry.1) (log_at p g w steps) }
{
    cut_rows_have_words();
    a_ring_makes_senders_of_its_key_group();
    each_turn_of_a_session_holds();
}

/// A reader that is enabled, of an operational read group, to which the last datagram of a pump brings a key frame, alone and
/// taken, holds its row. Let it be matched to a writer, its read group have taken nothing but what was sent, and the frame have
/// the number of the last place in the writer's log. Then it holds that newest version: the version's row, cut to the reader's
/// fields, at the number of that place. A closing turn is answered by a key frame, whose place and version are the last in the
/// writer's log.
pub fn a_key_frame_that_comes_last_is_held()
    ensures held { (p : Plan) (r i : ℕ) (before : List Step) (entries : List Entry)
        (row : List DataValue) → BringsLast p r i before entries row
        → (reader_at p.config r i (Pump entries ∷ before)).kept.row ≡ Some row }
    ensures newest { (p : Plan) (r i g w : ℕ) (before : List Step) (entries : List Entry)
        (rows : ℕ → ℕ → List DataValue) (row : List DataValue) (version : ℕ)
        → InSession p r i g w (Pump entries ∷ before) → AreVersions p (Pump entries ∷ before) rows
        → (last : BringsLast p r i before entries row)
        → IsNewest p r i g w before entries last.brings.frame.number version
        → HoldsNewest p r i g w (Pump entries ∷ before) rows version }
    ensures closing { (p : Plan) (g w : ℕ) (steps : List Step) (before : List WriterDeed)
        (turn : WriterTurn) → writer_deeds p g w steps ≡ HadTurn turn ∷ before → turn.closing ≡ true
        → let s = settings_at (group_at p.config g) w in
        IsLastLogged p g w steps (next_place s (cadence s before)) turn.version }
{
    a_lone_key_frame_is_held();
    matched_readers_hold_published_versions();
}

/// Of read groups that took nothing but what was sent. The last turn of a writer was a closing one, and its frame came to a
/// matched reader that goes by numbers, since its last cut. Then the reader holds the turn's version: the version's row, cut to
/// its fields, at the number of the last place in the writer's log, where this version stands. This is the version that the
/// closing tick sampled of the writer's data set. It does so at whatever place of a pump the frame came, however often, and
/// whatever came before or after it (`came`). It came where, without security, each datagram of the turn with a part for the
/// reader is one that the journal has as received in the pumps after it (`received`). Read group and reader were enabled and
/// operational in these. The datagrams may have come whole or in chunks, and in whichever order. It came likewise to a secured
/// read group that names the writer's group, whatever the read group has accepted before (`secured`). It came to one that names
/// none where this took each of its datagrams once, and none of a higher token (`taken`).
///
/// A reader with no numbering holds the row of this version, cut to its fields, where the frame came since its last cut, and
/// no other key frame after it (`came_last`). It came so, whole or in chunks, where the pumps are all that are after the
/// closing tick, to a read group that isn't secured, or that names the writer's group (`since_last`). This asks that no other
/// key frame came once all of its datagrams had come. To a secured one that may name no group it came where this took each of
/// its datagrams, and none of a higher token (`taken_last`). This asks that no other key frame came once it had taken all of
/// them. Without security the datagram of a frame that isn't in chunks may come in pumps that begin anywhere after the turn.
/// It is enough that no other key frame came after one of its comings (`received_last`): a chunk that comes again brings
/// nothing.
///
/// The version of each closing turn is the one that the closing tick sampled of the writer's data set (`sampled`).
pub fn a_closing_frame_that_came_is_held()
    ensures received { (p : Plan) (r i g w : ℕ) (steps : List Step) (rows : ℕ → ℕ → List DataValue)
        (before : List GroupDeed) (turn : GroupTurn) (own : WriterTurn) → InSession p r i g w steps
        → AreVersions p steps rows → ClosingGot p r i g w steps before turn own
        → HoldsClosing p r i g w steps rows own.version }
    ensures secured { (p : Plan) (r i g w : ℕ) (steps : List Step) (rows : ℕ → ℕ → List DataValue)
        (own : WriterTurn) → InSession p r i g w steps → AreVersions p steps rows
        → ClosingGotSecured p r i g w steps own → HoldsClosing p r i g w steps rows own.version }
    ensures taken { (p : Plan) (r i g w : ℕ) (steps : List Step) (rows : ℕ → ℕ → List DataValue)
        (own : WriterTurn) → InSession p r i g w steps → AreVersions p steps rows
        → ClosingTook p r i g w steps own → HoldsClosing p r i g w steps rows own.version }
    ensures came { (p : Plan) (r i g w : ℕ) (steps : List Step) (rows : ℕ → ℕ → List DataValue)
        (before : List WriterDeed) (turn : WriterTurn) → InSession p r i g w steps
        → AreVersions p steps rows → ClosingCame p r i g w steps before turn
        → HoldsClosing p r i g w steps rows turn.version }
    ensures received_last { (p : Plan) (r i g w : ℕ) (steps : List Step)
        (rows : ℕ → ℕ → List DataValue) (before : List GroupDeed) (turn : GroupTurn)
        (own : WriterTurn) → InSession p r i g w steps → AreVersions p steps rows
        → ClosingGotLast p r i g w steps before turn own
        → HoldsClosingRow p r i g w steps rows own.version }
    ensures since_last { (p : Plan) (r i g w : ℕ) (steps : List Step)
        (rows : ℕ → ℕ → List DataValue) (own : WriterTurn) → InSession p r i g w steps
        → AreVersions p steps rows → ClosingGotSinceLast p r i g w steps own
        → HoldsClosingRow p r i g w steps rows own.version }
    ensures taken_last { (p : Plan) (r i g w : ℕ) (steps : List Step)
        (rows : ℕ → ℕ → List DataValue) (own : WriterTurn) → InSession p r i g w steps
        → AreVersions p steps rows → ClosingTookLast p r i g w steps own
        → HoldsClosingRow p r i g w steps rows own.version }
    ensures came_last { (p : Plan) (r i g w : ℕ) (steps : List Step) (rows : ℕ → ℕ → List DataValue)
        (before : List WriterDeed) (turn : WriterTurn) → InSession p r i g w steps
        → AreVersions p steps rows → ClosingCameLast p r i g w steps before turn
        → HoldsClosingRow p r i g w steps rows turn.version }
    ensures sampled { (limit : ℕ) (p : Plan) (g w : ℕ) (steps : List Step)
        (later before : List WriterDeed) (turn : WriterTurn) → IsPlan p → AreStepsOf limit p steps
        → g < length p.config.group → w < length (group_at p.config g).writer
        → writer_deeds p g w steps ≡ later ++ HadTurn turn ∷ before → turn.closing ≡ true
        → ClosesWith steps (writer_at (group_at p.config g) w).dataset turn.version }
{
    what_the_laws_below_say();
    answers_have_places_of_their_span();
    matched_readers_hold_published_versions();
}

/// A session has 4,097 ticks at most: 4,096, and the closing one.
pub fn a_session_has_at_most_4097_ticks()
    ensures { (p : Plan) (steps : List Step) → AreSteps p steps → ticks_in steps ≤ most_ticks + 1 }
{}

/// No two datagrams of a session that one key group protects have the same token and number, over any link, however long it lasts.
pub fn no_token_and_number_come_twice_in_a_session()
    ensures { (limit : ℕ) (p : Plan) (k : ℕ) (steps : List Step) → IsPlan p
        → AreStepsOf limit p steps → k < length p.config.keygroup
        → AllPairs HaveOtherNumbers (protected_by p k steps) }
{
    no_token_and_number_come_twice_in_groups();
    each_turn_of_a_session_holds();
}

/// Under each new token a writer's first frame is a key frame: at whichever tick the writer first has a turn under it, which
/// is one that changes the token of its group's key group or a later one.
pub fn a_new_token_begins_with_key_frames()
    ensures first { (p : Plan) (k g w : ℕ) (steps : List Step)
        → (group_at p.config g).keygroup ≡ Some k → w < length (group_at p.config g).writer
        → BeginWithKeys (keyed_turns p.config k g w (deeds p steps)) }
    ensures turns { (p : Plan) (k g w : ℕ) (steps : List Step)
        → map (λ turn. turn.answered) (keyed_turns p.config k g w (deeds p steps))
        ≡ answered_at p g w steps }
    ensures at_once { (p : Plan) (before : List Step) (now : ℕ) (closing : Bool)
        (samples : List Sampled) (g w : ℕ) (turn : WriterTurn) → g < length p.config.group
        → w < length (group_at p.config g).writer
        → is_rekeyed p.config now (deeds p before) g ≡ true
        → let past = group_past p.config g (deeds_before p before now closing samples g) in
        IsAnsweredWhole p.config past g w turn }
{
    a_refreshed_writer_sends_a_key_frame();
}

/// Two courses of a session whose pumps differ in datagrams alone that read groups refuse where they stand, as where the second has
/// further ones. The groups do the same and have as many sends done. Each reader is the same and has the same stores. Each read
/// group takes the same datagrams with the same answers, and each component has the same state. So what a closed session tells of
/// groups, writers and readers is the same. Of read groups the counts of causes alone may differ. Of the link the count of received
/// datagrams may, where the second course has further datagrams alone and no pump ends at its limit. Where a journal is another one
/// with further receives, and no pump of either ends at its limit, both are divided into the same sends and pumps.
pub fn refused_datagrams_leave_no_trace_in_a_session()
    ensures groups { (p : Plan) (twins : List TwinStep)
        → deeds p (firsts twins) ≡ deeds p (seconds twins) }
    ensures further { (p : Plan) (twins : List TwinStep) → AddRefused p twins → AreTwins p twins }
    ensures readers { (p : Plan) (twins : List TwinStep) → AreTwins p twins → (r i : ℕ)
        → reader_at p.config r i (firsts twins) ≡ reader_at p.config r i (seconds twins) }
    ensures stores { (p : Plan) (twins : List TwinStep) → AreTwins p twins → (r i : ℕ)
        → stores p.config r i (firsts twins) ≡ stores p.config r i (seconds twins) }
    ensures answers { (p : Plan) (twins : List TwinStep) → AreTwins p twins → (r : ℕ)
        → filter is_ok (answers_at p.config r (firsts twins))
        ≡ filter is_ok (answers_at p.config r (seconds twins)) }
    ensures taken { (p : Plan) (twins : List TwinStep) → AreTwins p twins → (r : ℕ)
        → taken_by (answers_at p.config r (firsts twins))
        ≡ taken_by (answers_at p.config r (seconds twins)) }
    ensures states { (p : Plan) (twins : List TwinStep) → AreTwins p twins → (component : Component)
        → state_at p (firsts twins) component ≡ state_at p (seconds twins) component }
    ensures sends { (p : Plan) (twins : List TwinStep) (g : ℕ)
        → sent_by p g (firsts twins) ≡ sent_by p g (seconds twins) }
    ensures lines { (p : Plan) (twins : List TwinStep) (closed : Closed) → AreTwins p twins
        → IsClosedAfter p (firsts twins) closed
        → IsClosedAfter p (seconds twins) (with_counts_of p (seconds twins) closed) }
    ensures causes { (p : Plan) (twins : List TwinStep) (r : ℕ) → AreTwins p twins
        → let end = read_group_end p (seconds twins) r in
        end ≡ record (read_group_end p (firsts twins) r) { causes = end.causes } }
    ensures received { (p : Plan) (twins : List TwinStep) → HaveFurther twins
        → limits (firsts twins) ≡ 0 → limits (seconds twins) ≡ 0
        → let end = link_end p (seconds twins) in
        end ≡ record (link_end p (firsts twins)) { received = end.received } }
    ensures division { (p : Plan) (first second : List Step) → HaveOneCourse first second
        → IsRun p first → IsRun p second → limits first ≡ 0 → limits second ≡ 0
        → HasFurther (journal p first) (journal p second) → HasTwins first second }
{
    refused_datagrams_leave_no_trace();
}

/// For given switches, appends, ticks with their samples, and places of the pumps, a journal divides in one way alone
/// into the sends and receives of a session. Which sends were done and what each pump got can be read off it.
pub fn a_journal_has_one_run()
    ensures { (p : Plan) (first second : List Step) → HaveOneCourse first second → IsRun p first
        → IsRun p second → journal p first ≡ journal p second → first ≡ second }
{}

/// What the laws below say of turns, of what read groups take of them, of rows and of senders, as one record.
pub fn what_the_laws_below_say()
    ensures { Laws }
{
    each_datagram_is_taken_as_it_was_sent();
    each_part_is_of_what_was_answered();
    a_datagram_has_nothing_for_readers_of_other_groups();
    a_matched_reader_reads_its_writer();
    near_readers_have_their_records();
    cut_rows_have_words();
    a_ring_makes_senders_of_its_key_group();
    each_turn_of_a_session_holds();
}
