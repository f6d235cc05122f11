//! What the lines of a gateway tell, as laws: each is the contract of a function that does nothing.
ghost use Rattle.std.specs.Prelude.{◌≡◌, ◌<◌, ℕ, List, length, None, Some};
ghost use Rattle.dataset_meta.specs.DataValues.{DataValue};
ghost use Rattle.ps_config.specs.declared.parts.Config.{Config};
ghost use Rattle.ps_report.specs.declared.closed.Closed.{Closed};
ghost use Rattle.ps_report.specs.Lines.{waits_text};
ghost use Rattle.report_laws.specs.Alike.{AreToldAlike};
ghost use Rattle.report_laws.specs.Reported.{IsReported};
ghost use Rattle.writer_group.specs.Parts.{group_at};
ghost use Rattle.session_model.specs.Events.{reader_at};
ghost use Rattle.session_model.specs.Steps.{Plan, Step};
ghost use Rattle.session_laws.specs.Reading.{IsMatchedIn};
ghost use Rattle.session_laws.specs.Sessions.{AreVersions};
ghost use Rattle.gateway_core.specs.declared.collected.StoreVersion.{StoreVersion};
ghost use Rattle.gateway_laws.specs.Gateways.{IsHonestAgain, IsRelay};
ghost use Rattle.gateway_laws.specs.Relays.{RelayStep, firsts, seconds};
ghost use Rattle.gateway_laws.specs.Sources.{Source};
ghost use Rattle.gateway_laws.specs.Telling.{IsNumbered};
ghost use Rattle.cmd_relay.specs.Telling.{TellsHeld, TellsRelay, TellsStores, line_of, seat_in};
ghost use Rattle.cmd_relay.specs.Texts.{IsReaderText, IsTextOf, IsWriterText, versions_of};

use gateway_laws::{
    a_gateway_publishes_what_is_stored, a_gateway_tells_the_first_history,
    a_kept_version_is_of_its_store,
};

/// The line of a gateway's writer has the stores whose rows its data frames publish, each that of its own round. The line of a
/// matched reader with numbering `message`, whose read group takes nothing but what was sent, has the row of the store in it, or
/// says why the reader waits. Where one is told, it also has the version that the store came with. That is so where the source's
/// read group takes nothing else too. The text has a line of each, and from one moment to a later one what is held gets no older,
/// where the source's read group takes nothing else too and nothing was cut.
pub fn the_lines_of_a_gateway_tell_stores()
    ensures stores { (p : Plan) (second : Config) (sources : List Source) (relay : List RelayStep)
        (rows : ℕ → ℕ → List DataValue) (g w : ℕ) (line : List ℕ) → IsRelay p second sources relay
        → AreVersions p (firsts relay) rows → w < length (group_at second g).writer
        → IsWriterText second (seconds relay) (g, w) line
        → TellsStores p second sources relay rows g w line }
    ensures waits { (second : Config) (steps : List Step) (kept : ℕ → List StoreVersion)
        (r i g w : ℕ) (line : List ℕ) → g < length second.group
        → IsMatchedIn second r i g w → IsReaderText second steps kept (r, i) line
        → (reader_at second r i steps).kept.row ≡ None
        → line ≡ line_of (seat_in second r i).part.name
        (waits_text (reader_at second r i steps).kept.why) }
    ensures held { (p : Plan) (second : Config) (sources : List Source) (relay : List RelayStep)
        (rows : ℕ → ℕ → List DataValue) (r i g w : ℕ) (row : List DataValue) (line : List ℕ)
        → IsRelay p second sources relay → AreVersions p (firsts relay) rows
        → IsNumbered second r i g w → IsHonestAgain second r relay
        → IsReaderText second (seconds relay) (versions_of p sources relay) (r, i) line
        → (reader_at second r i (seconds relay)).kept.row ≡ Some row
        → TellsHeld p second sources relay rows r i g w row line }
    ensures text { (p : Plan) (first second : Config) (sources : List Source)
        (relay : List RelayStep) (rows : ℕ → ℕ → List DataValue) (closed : Closed) (text : List ℕ)
        → IsRelay p second sources relay → AreVersions p (firsts relay) rows
        → IsTextOf first closed second (seconds relay) (versions_of p sources relay) text
        → TellsRelay p second sources relay rows text }
{
    a_gateway_publishes_what_is_stored();
    a_gateway_tells_the_first_history();
    a_kept_version_is_of_its_store();
}

/// The text of a relay tells one first session: two that have the same text, whatever the gateways did, are described alike.
pub fn a_text_of_a_relay_tells_one_session()
    ensures { (first second : Config) (one other : Closed) (steps others : List Step)
        (kept stores : ℕ → List StoreVersion) (text : List ℕ)
        → IsReported first one → IsReported first other
        → IsTextOf first one second steps kept text → IsTextOf first other second others stores text
        → AreToldAlike one other }
{}
