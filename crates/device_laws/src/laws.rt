//! Laws of devices, each the contract of a function that does nothing.
ghost use Rattle.std.specs.Prelude.{◌≡◌, ◌⊎◌, ◌<◌, ◌≤◌, ℕ, List, ◌∷◌, ◌++◌, Contains, Some, length, slice_get, true};
ghost use Rattle.std.specs.List.Sorted.{IsNonDecreasingBy};
ghost use Rattle.dataset_meta.specs.DataValues.{DataValue};
ghost use Rattle.group_keys.specs.declared.key_set.KeySet.{KeySet};
ghost use Rattle.pubsub_model.specs.Cadence.{HadTurn, WriterDeed, WriterTurn, is_data};
ghost use Rattle.ps_config.specs.declared.parts.GroupPart.{GroupPart};
ghost use Rattle.ps_config.specs.declared.parts.ReadGroupPart.{ReadGroupPart};
ghost use Rattle.reader_group.specs.Agreeing.{MemberIs};
ghost use Rattle.reader_group.specs.Groups.{Stands};
ghost use Rattle.reader_group.specs.Plain.{plain, with_keys};
ghost use Rattle.reader_group.specs.Settings.{group_at as read_group_at};
ghost use Rattle.writer_group.specs.Parts.{group_at};
ghost use Rattle.device.specs.declared.asked.Next.{Next};
ghost use Rattle.device.specs.declared.looking.Looked.{Looked};
ghost use Rattle.device.specs.declared.publisher.Publisher.{Publisher};
ghost use Rattle.device.specs.Calls.{ComesStored};
ghost use Rattle.device.specs.Resuming.{IsBehindConfigured};
ghost use Rattle.device.specs.Storing.{HasSaved, HasStored};
ghost use Rattle.session_laws.specs.Headline.{answered_turn};
ghost use Rattle.session_laws.specs.Pasts.{IsMade, IsPast, settings_at};
ghost use Rattle.session_laws.specs.Plays.{ComesFromWriter, its_marks, its_way};
ghost use Rattle.device_laws.specs.Devices.{ArePaired, ArePairedByOne, HasItsHistory, HasSentFew, HoldsNamed, IsCounted, IsOfHistory, KeepsMember, MemoryHolds, PublishesRow, ReadsPlainly, StandsAsRead, log_in, member_in, play_of, set_in, writer_deeds_in};
ghost use Rattle.device_laws.specs.Publishing.{AreOwnRings, Aside, CameTo, HasOffered, IsOwnRing, IsPublisherCall, IsPublisherLife, PublisherLife, Resumed, Waited, config_in, moments_in};
ghost use Rattle.device_laws.specs.Subscribing.{AreOwnKeys, IsSubscriberLife, SubscriberLife, events_in, reading_in, setting_in};
ghost use Rattle.device_laws.specs.Turning.{past_in};

use group_laws::{a_matched_reader_reads_its_writer, a_ring_makes_senders_of_its_key_group};
use session_laws::a_matched_reader_holds_what_was_sent;

/// What the clauses of a publisher's calls say makes each of them one of a life. A call that comes to a moment waits, or its
/// groups do something (`came`). One that sets nothing (`unset`), changes nothing (`refused`), saves (`saved`), or tells that what
/// was saved is in store (`stored`) stands aside. `resume` goes on with a ring of the configuration's own key sets (`resumed`). The
/// clauses of the other calls name the life's records as they stand, but for `begin_at` and `restore`, which are none of a life.
pub fn each_call_is_a_step_of_a_life()
    ensures came { (now : ℕ) (next : Next) (old new : Publisher) → ComesStored now next old new
        → IsPublisherCall (Waited now) old new
        ⊎ ((did : List Looked) × IsPublisherCall (CameTo now next did) old new) }
    ensures unset { (old new : Publisher) → new.rows.items ≡ old.rows.items
        → new ≡ record old { rows = new.rows } → IsPublisherCall Aside old new }
    ensures refused { (old new : Publisher) → new ≡ old → IsPublisherCall Aside old new }
    ensures saved { (ahead : ℕ) (bytes : List ℕ) (old new : Publisher)
        → HasSaved ahead old new bytes → IsPublisherCall Aside old new }
    ensures stored { (old new : Publisher) → HasStored old new → IsPublisherCall Aside old new }
    ensures resumed { (keygroup now used : ℕ) (old new : Publisher)
        → IsBehindConfigured keygroup now used old new
        → (sets : List KeySet) × IsPublisherCall (Resumed keygroup now used sets) old new
        × IsOwnRing old.config keygroup sets }
{}

/// Over all calls of a subscriber each of its read groups stands where the plain reading of what befell it does. That reads each
/// datagram with the keys that the group had when it came (`stands`). So each reader in memory keeps what the plain reading keeps
/// (`keeps`). Where no ring gave the read group other keys than its configuration's, this is the plain reading of its events
/// (`plain`).
pub fn a_subscriber_reads_what_came()
    ensures stands { (text : List ℕ) (life : SubscriberLife) (r : ℕ) → IsSubscriberLife text life
        → r < length life.first.config.readgroup → StandsAsRead life r }
    ensures keeps { (text : List ℕ) (life : SubscriberLife) (r i : ℕ) → IsSubscriberLife text life
        → r < length life.first.config.readgroup → KeepsMember life r i }
    ensures plain { (life : SubscriberLife) (r : ℕ)
        → AreOwnKeys life.steps r (setting_in life r).setup.keys → ReadsPlainly life r }
{}

/// Over all calls of a publisher each datagram that it gave was made by a turn of one of its groups (`made`). Where each ring
/// that it was given has the keys of its configuration, what its groups lived through are pasts by the definitions of a group
/// (`pasts`).
///
/// Each data set has one history of rows. The publisher has the last of them, and its version is the place of that (`history`). A
/// turn of a writer has the whole row that the publisher had then, which is that of its version in the history (`rows`). Each
/// data frame of a writer, with those before it, publishes this row (`publishes`). The versions in a writer's log never fall
/// (`never_older`).
pub fn a_publisher_sends_turns_of_its_groups()
    ensures pasts { (text : List ℕ) (life : PublisherLife) (g : ℕ) (group : GroupPart)
        → IsPublisherLife text life → AreOwnRings (config_in life) life.steps
        → slice_get (config_in life).group g ≡ Some group
        → IsPast (config_in life) group (past_in life g) }
    ensures made { (text : List ℕ) (life : PublisherLife) (datagram : List ℕ)
        → IsPublisherLife text life → HasOffered life.steps datagram
        → IsMade (config_in life) (past_in life) datagram }
    ensures history { (text : List ℕ) (life : PublisherLife) (set : ℕ) → IsPublisherLife text life
        → IsCounted life → set < length (config_in life).dataset → HasItsHistory life set }
    ensures rows { (text : List ℕ) (life : PublisherLife) (g w : ℕ) (turn : WriterTurn)
        → IsPublisherLife text life → IsCounted life → g < length (config_in life).group
        → w < length (group_at (config_in life) g).writer
        → Contains (writer_deeds_in life g w) (HadTurn turn)
        → IsOfHistory life (set_in life g w) turn }
    ensures publishes { (text : List ℕ) (life : PublisherLife) (g w : ℕ)
        (later before : List WriterDeed) (turn : WriterTurn) → IsPublisherLife text life
        → IsCounted life → g < length (config_in life).group
        → w < length (group_at (config_in life) g).writer
        → writer_deeds_in life g w ≡ later ++ HadTurn turn ∷ before
        → is_data (answered_turn (settings_at (group_at (config_in life) g) w) before turn) ≡ true
        → PublishesRow life g w before turn }
    ensures never_older { (text : List ℕ) (life : PublisherLife) (g w : ℕ)
        → IsPublisherLife text life → IsCounted life → g < length (config_in life).group
        → w < length (group_at (config_in life) g).writer
        → IsNonDecreasingBy (λ entry. entry.1) (log_in life g w) }
{
    a_ring_makes_senders_of_its_key_group();
}

/// A publisher of one configuration, and a subscriber of another or of the same. A reader of it is matched to a writer, and each
/// datagram that its read group took had waited at the publisher. Whatever else came, and whichever datagrams were lost, repeated
/// or reordered:
///
/// - each item that came to the reader is a frame that the writer answered, at up to 65,536 data frames (`comes`)
/// - at up to 16,385 what is kept for the reader is what *Records* has of these items, with why it waits where it does (`keeps`)
/// - at up to 16,385 a row that it holds is the whole row of a version in the history of the writer's data set: that which the
///   publisher had at the writer's turn whose data frame has the held number (`holds`), as the reader in memory tells it
///   (`memory`)
///
/// A publisher that came to so many moments at most sent no more data frames than that (`few`). Of one configuration the read
/// group with an index is one of such a pair (`one`).
pub fn a_paired_reader_holds_what_was_published()
    ensures comes { (text other : List ℕ) (pl : PublisherLife) (sl : SubscriberLife)
        (readers : ReadGroupPart) (r i g w most : ℕ) → ArePaired text other pl sl readers r i g w
        → most ≤ 65536 → HasSentFew most pl g w → ComesFromWriter (play_of pl sl readers r i g w) }
    ensures keeps { (text other : List ℕ) (pl : PublisherLife) (sl : SubscriberLife)
        (readers : ReadGroupPart) (r i g w : ℕ) → ArePaired text other pl sl readers r i g w
        → HasSentFew 16385 pl g w → let p = play_of pl sl readers r i g w in
        MemberIs (its_way p) (its_marks p) (member_in sl r i) }
    ensures holds { (text other : List ℕ) (pl : PublisherLife) (sl : SubscriberLife)
        (readers : ReadGroupPart) (r i g w : ℕ) (row : List DataValue)
        → ArePaired text other pl sl readers r i g w → IsCounted pl → HasSentFew 16385 pl g w
        → (member_in sl r i).kept.row ≡ Some row
        → HoldsNamed pl g w (member_in sl r i).kept.number row }
    ensures memory { (text other : List ℕ) (pl : PublisherLife) (sl : SubscriberLife)
        (readers : ReadGroupPart) (r i g w : ℕ) → ArePaired text other pl sl readers r i g w
        → IsCounted pl → HasSentFew 16385 pl g w → MemoryHolds sl r i (HoldsNamed pl g w) }
    ensures few { (most : ℕ) (life : PublisherLife) (g w : ℕ) → moments_in life.steps ≤ most
        → HasSentFew most life g w }
    ensures one { (text : List ℕ) (pl : PublisherLife) (sl : SubscriberLife) (r i g w : ℕ)
        → ArePairedByOne text pl sl r i g w
        → ArePaired text text pl sl (read_group_at (config_in pl) r) r i g w }
{
    a_ring_makes_senders_of_its_key_group();
    a_matched_reader_reads_its_writer();
    a_matched_reader_holds_what_was_sent();
}
