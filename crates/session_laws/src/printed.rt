//! What a closed session tells of matched readers, each law the contract of a function that does nothing.
ghost use Rattle.std.specs.Prelude.{◌<◌, ℕ, List, length};
ghost use Rattle.dataset_meta.specs.DataValues.{DataValue};
ghost use Rattle.pubsub_model.specs.Cadence.{WriterTurn};
ghost use Rattle.ps_report.specs.declared.closed.Closed.{Closed};
ghost use Rattle.ps_report.specs.declared.closed.ReaderEnd.{ReaderEnd};
ghost use Rattle.ps_report.specs.declared.closed.WriterEnd.{WriterEnd};
ghost use Rattle.session_model.specs.Steps.{Plan, Step};
ghost use Rattle.writer_group.specs.Parts.{group_at};
ghost use Rattle.writer_group.specs.Payloads.{writer_at};
ghost use Rattle.session_model.specs.Closing.{IsClosedAfter};
ghost use Rattle.session_model.specs.Keeping.{AreSteps, IsPlan};
ghost use Rattle.session_laws.specs.Complete.{ClosingComes, IsNewestTold};
ghost use Rattle.session_laws.specs.Headline.{InSession};
ghost use Rattle.session_laws.specs.Printed.{EndsReader, EndsWriter, TellsReader, TellsWriter};
ghost use Rattle.session_laws.specs.Sessions.{AreVersions, ClosesWith, SamplesRise};
ghost use Rattle.session_laws.specs.Telling.{HasRun, TellsHeadline};

use crate::laws::{
    a_closing_frame_that_came_is_held, data_messages_stand_for_versions,
    matched_readers_hold_published_versions,
};

/// What is told of a matched reader, whose read group took nothing but what was sent, when the session is closed. A row that it
/// holds is that of the version that the told log of its writer has at the told number, cut to the reader's fields. This
/// version is told. The row is that of the writer's turn whose data frame has this place, cut so. Where it holds none, the
/// reason is told; and always the number of its breaks, and the last eight. A reader to which the frame of its writer's closing
/// turn came is told to hold the version that the closing tick sampled (`newest`).
pub fn closed_sessions_tell_published_versions()
    ensures there { (p : Plan) (r i g w : ℕ) (steps : List Step) (closed : Closed)
        → InSession p r i g w steps → IsClosedAfter p steps closed
        → ((end : ReaderEnd) × EndsReader p.config closed r i end)
        × ((end : WriterEnd) × EndsWriter p.config closed g w end) }
    ensures readers { (p : Plan) (r i g w : ℕ) (steps : List Step) (rows : ℕ → ℕ → List DataValue)
        (closed : Closed) (reader : ReaderEnd) (writer : WriterEnd) → InSession p r i g w steps
        → AreVersions p steps rows → IsClosedAfter p steps closed
        → EndsReader p.config closed r i reader → EndsWriter p.config closed g w writer
        → TellsReader p r i g w steps rows writer.log reader }
    ensures newest { (p : Plan) (r i g w : ℕ) (steps : List Step) (rows : ℕ → ℕ → List DataValue)
        (closed : Closed) (version : ℕ) (own : WriterTurn) → InSession p r i g w steps
        → AreVersions p steps rows → IsClosedAfter p steps closed
        → ClosesWith steps (writer_at (group_at p.config g) w).dataset version
        → ClosingComes p r i g w steps own → IsNewestTold p r i g w rows closed version }
    ensures writers { (p : Plan) (g w : ℕ) (steps : List Step) (closed : Closed) (end : WriterEnd)
        → IsPlan p → AreSteps p steps → SamplesRise p steps → IsClosedAfter p steps closed
        → w < length (group_at p.config g).writer → EndsWriter p.config closed g w end
        → TellsWriter p g w steps end }
{
    matched_readers_hold_published_versions();
    data_messages_stand_for_versions();
    a_closing_frame_that_came_is_held();
}

/// The headline: what a session of an accepted plan tells when it is closed.
pub fn a_closed_session_tells_the_headline()
    ensures { (p : Plan) (steps : List Step) (rows : ℕ → ℕ → List DataValue) (closed : Closed)
        → HasRun p steps rows → IsClosedAfter p steps closed → TellsHeadline p steps rows closed }
{
    closed_sessions_tell_published_versions();
    data_messages_stand_for_versions();
}
