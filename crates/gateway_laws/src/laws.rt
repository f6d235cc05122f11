//! Laws of gateways, each the contract of a function that does nothing.
ghost use Rattle.std.specs.Prelude.{◌≡◌, ◌⊎◌, ◌<◌, ◌≤◌, ℕ, not, true, [], List, ◌∷◌, ◌++◌, length, slice_index_or, Some};
ghost use Rattle.std.specs.List.Sorted.{IsNonDecreasingBy};
ghost use Rattle.dataset_meta.specs.DataValues.{DataValue};
ghost use Rattle.pubsub_model.specs.Cadence.{WriterDeed, WriterTurn, HadTurn, is_data};
ghost use Rattle.ps_config.specs.declared.parts.Config.{Config};
ghost use Rattle.writer_group.specs.Payloads.{writer_at};
ghost use Rattle.writer_group.specs.declared.sampled.Sampled.{Sampled};
ghost use Rattle.session_model.specs.Steps.{Plan, is_on, switches_in};
ghost use Rattle.session_model.specs.Sets.{meta_in};
ghost use Rattle.session_model.specs.Deeds.{Deed, is_spent, log_at, works, writer_deeds};
ghost use Rattle.writer_group.specs.Parts.{group_at};
ghost use Rattle.pubsub_states.specs.declared.component.Component.{Component};
ghost use Rattle.pubsub_states.specs.declared.component.Component.TheVariants.{Group, Writer};
ghost use Rattle.session_model.specs.Events.{reader_at, receives};
ghost use Rattle.session_model.specs.Keeping.{AreSteps};
ghost use Rattle.session_laws.specs.Reading.{IsMatchedIn, ReadsByRecords, first_number_of};
ghost use Rattle.session_laws.specs.Headline.{IsPublished, PublishesVersion, answered_turn};
ghost use Rattle.session_laws.specs.Pasts.{settings_at};
ghost use Rattle.session_laws.specs.Sessions.{AreVersions, HasSample, SamplesRise};
ghost use Rattle.gateway_laws.specs.Sources.{HaveSources, Source, source_at};
ghost use Rattle.gateway_laws.specs.Relays.{RelayStep, WasCounted, firsts, seconds, stored_rows, stores_of};
ghost use Rattle.config_tables.specs.declared.words.NumberingWord.TheVariants.{Message};
ghost use Rattle.reader_group.specs.Members.{seat_at};
ghost use Rattle.reader_group.specs.Settings.{setting_of};
ghost use Rattle.session_model.specs.Steps.{Step};
ghost use Rattle.session_laws.specs.Headline.{InSession};
ghost use Rattle.gateway_laws.specs.Origins.{CameWith, HoldsVersionAt, IsUncutBetween, WasMade};
ghost use Rattle.gateway_laws.specs.Telling.{IsKnown, IsNoOlder, IsNumbered, TellsGateway, source_of};
ghost use Rattle.dataset_meta.specs.Metas.{MetaData};
ghost use Rattle.version_cell.specs.Cells.{CellData, IsCell};
ghost use Rattle.version_cell.specs.Known.{Known};
ghost use Rattle.version_cell.specs.Passes.{IsPassOf, SeesLawful};
ghost use Rattle.session_model.specs.Stores.{Store};
ghost use Rattle.gateway_laws.specs.Relays.{IsCollected};
ghost use Rattle.gateway_laws.specs.Versions.{HasStored, versions_kept};
ghost use Rattle.gateway_laws.specs.Gateways.{IsRelay, IsHonestSource, IsHonestAgain, IsOfHistory, IsRelayed, set_of};
ghost use Rattle.gateway_core.specs.Lived.{GatewayStep, plan_again, sample_of, session_steps, version_in, versions_kept as versions_by_index};
ghost use Rattle.gateway_core.specs.Sources.{HaveSources as HaveIndexes};
ghost use Rattle.gateway_laws.specs.Lives.{ArePlaces, Lives};

use group_laws::{a_matched_reader_reads_its_writer, a_ring_makes_senders_of_its_key_group};
use pubsub_model::a_held_row_was_sent;
use row_words::cut_rows_have_words;
use session_laws::{
    a_session_has_at_most_4097_ticks, data_messages_stand_for_versions,
    each_turn_of_a_session_holds, matched_readers_hold_published_versions,
};
use version_cell::histories_are_the_models;

/// A gateway is a session of its configuration whose samples are the counts of its sources' stores, which never fall. Each data
/// frame of its writers publishes the row of the store that its log has, and its logs never fall. Each reader that is matched
/// within it, and whose read group takes nothing but what was sent, reads by *Records*. A row that it holds is that of a store in
/// the log: where it goes by numbers, of the one that the log has at its number.
pub fn a_gateway_publishes_what_is_stored()
    ensures session { (p : Plan) (second : Config) (sources : List Source) (relay : List RelayStep)
        → IsRelay p second sources relay → AreSteps (plan_again second) (seconds relay)
        × SamplesRise (plan_again second) (seconds relay)
        × AreVersions (plan_again second) (seconds relay)
        (stored_rows p.config second sources (firsts relay)) }
    ensures counts { (p : Plan) (second : Config) (sources : List Source) (relay : List RelayStep)
        (set : ℕ) (now : MetaData) (sample : Sampled) → IsRelay p second sources relay
        → set < length second.dataset → HasSample (plan_again second) (seconds relay) set now sample
        → WasCounted p.config sources relay set sample }
    ensures publish { (p : Plan) (second : Config) (sources : List Source) (relay : List RelayStep)
        (g w : ℕ) (later before : List WriterDeed) (turn : WriterTurn)
        → IsRelay p second sources relay → w < length (group_at second g).writer
        → writer_deeds (plan_again second) g w (seconds relay) ≡ later ++ HadTurn turn ∷ before
        → let part = writer_at (group_at second g) w in let s = settings_at (group_at second g) w in
        is_data (answered_turn s before turn) ≡ true
        → PublishesVersion (plan_again second) (seconds relay) s part.dataset
        (stored_rows p.config second sources (firsts relay)) before turn }
    ensures never_fall { (p : Plan) (second : Config) (sources : List Source)
        (relay : List RelayStep) (g w : ℕ) → IsRelay p second sources relay
        → w < length (group_at second g).writer
        → IsNonDecreasingBy (λ entry. entry.1) (log_at (plan_again second) g w (seconds relay)) }
    ensures reads { (p : Plan) (second : Config) (sources : List Source) (relay : List RelayStep)
        (r i g w : ℕ) → IsRelay p second sources relay → IsMatchedIn second r i g w
        → g < length second.group → IsHonestAgain second r relay
        → ReadsByRecords second r i (first_number_of second g w) (seconds relay) }
    ensures holds { (p : Plan) (second : Config) (sources : List Source) (relay : List RelayStep)
        (r i g w : ℕ) (row : List DataValue) → IsRelay p second sources relay
        → IsMatchedIn second r i g w → g < length second.group → IsHonestAgain second r relay
        → (reader_at second r i (seconds relay)).kept.row ≡ Some row
        → IsPublished (plan_again second) r i g w (seconds relay)
        (stored_rows p.config second sources (firsts relay))
        (reader_at second r i (seconds relay)).kept.number row }
{
    matched_readers_hold_published_versions();
    data_messages_stand_for_versions();
}

/// Where the source's read group takes nothing but what was sent, each store of a source has a row that its reader held at the end
/// of the pump that made it. That is the row, cut to the reader's fields, of the version that the first history's writer logged at
/// the number of the message. The store's origin tells this version.
pub fn what_is_stored_was_published()
    ensures { (p : Plan) (second : Config) (sources : List Source) (relay : List RelayStep)
        (set store : ℕ) (rows : ℕ → ℕ → List DataValue) → IsRelay p second sources relay
        → set < length second.dataset → IsHonestSource p (source_at sources set) (firsts relay)
        → AreVersions p (firsts relay) rows
        → store ≤ length (stores_of p.config sources set (firsts relay))
        → IsOfHistory p (meta_in second.dataset set) (source_at sources set) (firsts relay) rows
        store (stored_rows p.config second sources (firsts relay) set store) }
{
    matched_readers_hold_published_versions();
}

/// A matched reader that goes by numbers, whose read group takes nothing but what was sent, and that isn't cut between two
/// moments of a session, doesn't hold an older version at the later one than at the earlier.
pub fn an_uncut_reader_never_holds_an_older_version()
    ensures { (p : Plan) (r i g w : ℕ) (later now : List Step) (one other : ℕ)
        → InSession p r i g w (later ++ now)
        → (seat_at (setting_of p.config r).seats i).part.numbering ≡ Message
        → IsUncutBetween p r i g w now (later ++ now) → HoldsVersionAt p r i g w now one
        → HoldsVersionAt p r i g w (later ++ now) other → one ≤ other }
{
    matched_readers_hold_published_versions();
    a_held_row_was_sent();
    cut_rows_have_words();
    a_ring_makes_senders_of_its_key_group();
    each_turn_of_a_session_holds();
    a_session_has_at_most_4097_ticks();
}

/// From one moment of a relay to a later one the store that a reader holds doesn't fall, where that reader isn't cut between them.
/// The reader is matched within the second configuration, goes by numbers, and its read group takes nothing but what was sent. Nor,
/// where the source's read group takes nothing but what was sent, does the version that a store came with, where the source isn't
/// cut between the making of the two stores. So, where both take nothing else, the version that is printed doesn't fall, where
/// neither the reader is cut between the moments nor the source after the making of the store that was held earlier.
pub fn a_relayed_version_never_falls()
    ensures stores { (p : Plan) (second : Config) (sources : List Source)
        (newer older : List RelayStep) (r i g w : ℕ) (one other : ℕ)
        → IsRelay p second sources (newer ++ older) → IsMatchedIn second r i g w
        → g < length second.group → IsHonestAgain second r (newer ++ older)
        → (seat_at (setting_of second r).seats i).part.numbering ≡ Message
        → IsUncutBetween (plan_again second) r i g w (seconds older) (seconds (newer ++ older))
        → HoldsVersionAt (plan_again second) r i g w (seconds older) one
        → HoldsVersionAt (plan_again second) r i g w (seconds (newer ++ older)) other
        → one ≤ other }
    ensures versions { (p : Plan) (second : Config) (sources : List Source) (relay : List RelayStep)
        (set : ℕ) (store later_store one other : ℕ) → IsRelay p second sources relay
        → set < length second.dataset → let source = source_at sources set in
        IsHonestSource p source (firsts relay) → store ≤ later_store
        → (old : CameWith p source (firsts relay) store one)
        → (new : CameWith p source (firsts relay) later_store other)
        → IsUncutBetween p source.read_group source.reader source.group source.writer old.was.now
        new.was.now → one ≤ other }
    ensures printed { (p : Plan) (second : Config) (sources : List Source)
        (newer older : List RelayStep) (r i g w : ℕ) → IsRelay p second sources (newer ++ older)
        → IsNumbered second r i g w → IsHonestAgain second r (newer ++ older)
        → IsHonestSource p (source_of second sources g w) (firsts (newer ++ older))
        → IsNoOlder p second (source_of second sources g w) newer older r i g w }
{
    matched_readers_hold_published_versions();
    a_held_row_was_sent();
    cut_rows_have_words();
    a_ring_makes_senders_of_its_key_group();
    each_turn_of_a_session_holds();
    a_session_has_at_most_4097_ticks();
}

/// A reader that is matched within the second configuration, goes by numbers, and holds a row, holds the row of a store. That is
/// the opening row or the row of a version of the first history. Its read group and the source's take nothing but what was sent.
pub fn a_relayed_row_is_of_the_first_history()
    ensures { (p : Plan) (second : Config) (sources : List Source) (relay : List RelayStep)
        (r i g w : ℕ) (row : List DataValue) → IsRelay p second sources relay
        → IsMatchedIn second r i g w → g < length second.group → IsHonestAgain second r relay
        → (seat_at (setting_of second r).seats i).part.numbering ≡ Message
        → (reader_at second r i (seconds relay)).kept.row ≡ Some row
        → IsRelayed p second sources relay r i g w row }
{
    matched_readers_hold_published_versions();
    a_held_row_was_sent();
    cut_rows_have_words();
    a_ring_makes_senders_of_its_key_group();
    each_turn_of_a_session_holds();
    a_session_has_at_most_4097_ticks();
    a_matched_reader_reads_its_writer();
}

/// What a pass shows of a target is what is collected of its reader's stores, where the data set's fields are the reader's.
pub fn passes_show_what_is_collected()
    ensures { (cell : CellData) (meta : MetaData) (p : Known) (list : List Store) → IsCell cell
        → IsPassOf cell p → SeesLawful p → cell.meta.fields ≡ meta.fields
        → cell.meta.quality ≡ meta.quality → HasStored list cell.meta p
        → IsCollected meta list (sample_of p) }
{
    histories_are_the_models();
}

/// A store is made once: of its reader's rows one has this number, held at the end of one pump.
pub fn a_store_is_made_once()
    ensures { (p : Plan) (source : Source) (all : List Step) (store : ℕ) (made other : Store)
        → (old : WasMade p source all store made) → (again : WasMade p source all store other)
        → (made ≡ other) × (old.now ≡ again.now) }
{}

/// The version that a gateway keeps of a store is that of the store's origin at the end of the pump that made it; that of store 0
/// is 0. Of each store of an honest source it keeps one: at each round of the relay it collects what the pump before it stored.
/// It is the version that the store's row has in the first history.
pub fn a_kept_version_is_of_its_store()
    ensures of_origin { (p : Plan) (source : Source) (relay : List RelayStep) (store version : ℕ)
        → version_in (versions_kept p source relay) store ≡ Some version
        → ((store ≡ 0) × (version ≡ 0)) ⊎ CameWith p source (firsts relay) store version }
    ensures known { (p : Plan) (second : Config) (sources : List Source) (relay : List RelayStep)
        (set store : ℕ) → IsRelay p second sources relay → set < length second.dataset
        → IsHonestSource p (source_at sources set) (firsts relay)
        → store ≤ length (stores_of p.config sources set (firsts relay)) → (version : ℕ)
        × (version_in (versions_kept p (source_at sources set) relay) store ≡ Some version) }
    ensures joined { (p : Plan) (second : Config) (sources : List Source) (relay : List RelayStep)
        (rows : ℕ → ℕ → List DataValue) (set store : ℕ) → IsRelay p second sources relay
        → AreVersions p (firsts relay) rows → set < length second.dataset
        → IsHonestSource p (source_at sources set) (firsts relay)
        → store ≤ length (stores_of p.config sources set (firsts relay))
        → IsKnown p second sources relay rows set store }
{
    matched_readers_hold_published_versions();
    a_held_row_was_sent();
    cut_rows_have_words();
    a_ring_makes_senders_of_its_key_group();
    each_turn_of_a_session_holds();
    a_session_has_at_most_4097_ticks();
}

/// What a gateway tells is of the first history. Each data frame has the number of its source's stores at its round, and the row
/// of that store, whose version is known where the source's read group takes nothing but what was sent. What a matched reader that
/// goes by numbers holds is the row of the store that its number names, where its read group takes nothing but what was sent. From
/// one moment to a later one neither store nor version falls, where both take nothing else and nothing was cut.
pub fn a_gateway_tells_the_first_history()
    ensures { (p : Plan) (second : Config) (sources : List Source) (relay : List RelayStep)
        (rows : ℕ → ℕ → List DataValue) → IsRelay p second sources relay
        → AreVersions p (firsts relay) rows → TellsGateway p second sources relay rows }
{
    matched_readers_hold_published_versions();
    data_messages_stand_for_versions();
    a_held_row_was_sent();
    cut_rows_have_words();
    a_ring_makes_senders_of_its_key_group();
    each_turn_of_a_session_holds();
    a_session_has_at_most_4097_ticks();
    a_matched_reader_reads_its_writer();
}

/// In a gateway nothing is ever switched: its groups and writers are Operational unless their sender is spent, whatever sends
/// failed, and its read groups always are. So it needs no tree of states.
pub fn a_gateway_has_all_enabled()
    ensures none { (relay : List RelayStep) → switches_in (seconds relay) ≡ [] }
    ensures on { (config : Config) (steps : List Step) (component : Component)
        → switches_in steps ≡ [] → is_on config steps component ≡ true }
    ensures groups { (config : Config) (steps : List Step) (deeds : List Deed) (g : ℕ)
        → switches_in steps ≡ []
        → works config steps deeds (Group g) ≡ not (is_spent config g deeds) }
    ensures writers { (config : Config) (steps : List Step) (deeds : List Deed) (g w : ℕ)
        → switches_in steps ≡ []
        → works config steps deeds (Writer g w) ≡ not (is_spent config g deeds) }
    ensures reads { (config : Config) (steps : List Step) (r : ℕ) → switches_in steps ≡ []
        → receives config steps r ≡ true }
{}

/// A gateway that lives through a relay, with its sources at these indexes over all read groups, is the relay's second session, and
/// keeps of each store the version that its source's origin told. There are sources for indexes of readers.
pub fn a_gateway_lives_through_its_relay()
    ensures session { (p : Plan) (places : List ℕ) (sources : List Source) (relay : List RelayStep)
        (lived : List GatewayStep) → Lives p places sources relay lived
        → session_steps places lived ≡ seconds relay }
    ensures versions { (p : Plan) (places : List ℕ) (sources : List Source) (relay : List RelayStep)
        (lived : List GatewayStep) (set : ℕ) → set < length places
        → Lives p places sources relay lived → versions_by_index (slice_index_or places set 0) lived
        ≡ versions_kept p (source_at sources set) relay }
    ensures sources { (first second : Config) (places : List ℕ) → HaveIndexes first second places
        → (sources : List Source) × HaveSources first second sources
        × ArePlaces first places sources }
{}
