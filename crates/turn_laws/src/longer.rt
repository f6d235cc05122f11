//! Readers of a session of more ticks than a script has, with security or without.
ghost use Rattle.std.specs.Prelude.{◌≡◌, ◌<◌, ◌≤◌, ℕ, List, Some};
ghost use Rattle.dataset_meta.specs.DataValues.{DataValue};
ghost use Rattle.session_model.specs.Counts.{most_ticks};
ghost use Rattle.session_model.specs.Events.{reader_at};
ghost use Rattle.session_model.specs.Steps.{Plan, Step};
ghost use Rattle.session_laws.specs.Headline.{ComesFrom, InSession};
ghost use Rattle.session_laws.specs.Plays.{HoldsVersion};
ghost use Rattle.session_laws.specs.Reading.{ReadsByRecords, first_number_of};
ghost use Rattle.turn_laws.specs.Longer.{IsLongerSession, play_in};

use session_laws::{
    a_matched_reader_holds_what_was_sent, each_turn_of_a_session_holds, what_the_laws_below_say,
};

/// What is said of matched readers of a script's session holds of longer ones, where each datagram that the read group takes was
/// sent before and the versions that are sampled don't fall. The datagrams may come whole, in a slot or in chunks, and in whichever
/// order. Of up to 65,535 ticks beside the closing one: what comes is what the writer answered (`comes`). Of up to 16,384, in which
/// all places are near, those of chunks too, the reader reads by *Records* (`records`). A row that it holds is that of a turn of
/// the writer whose version the writer's log has. Where it goes by numbers that is the turn whose data frame the held number names
/// (`holds`). Each session of a script for which the headline speaks of a reader is such a session (`scripts`).
pub fn longer_sessions_are_read_by_records()
    ensures scripts { (p : Plan) (r i g w : ℕ) (steps : List Step) → InSession p r i g w steps
        → IsLongerSession most_ticks p r i g w steps }
    ensures comes { (most : ℕ) (p : Plan) (r i g w : ℕ) (steps : List Step) → most < 65536
        → IsLongerSession most p r i g w steps → ComesFrom p r i g w steps }
    ensures records { (most : ℕ) (p : Plan) (r i g w : ℕ) (steps : List Step) → most ≤ 16384
        → IsLongerSession most p r i g w steps
        → ReadsByRecords p.config r i (first_number_of p.config g w) steps }
    ensures holds { (most : ℕ) (p : Plan) (r i g w : ℕ) (steps : List Step) (row : List DataValue)
        → most ≤ 16384 → IsLongerSession most p r i g w steps
        → (reader_at p.config r i steps).kept.row ≡ Some row
        → HoldsVersion (play_in p r i g w steps) (reader_at p.config r i steps).kept.number row }
{
    what_the_laws_below_say();
    each_turn_of_a_session_holds();
    a_matched_reader_holds_what_was_sent();
}
