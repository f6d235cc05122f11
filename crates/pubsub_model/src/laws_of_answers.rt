//! Laws of one writer's answers, and of a reader to which nothing else comes, each the contract of a function that does nothing.
ghost use Rattle.std.specs.Prelude.{◌++◌, List};
ghost use Rattle.pubsub_model.specs.Cadence.{Settings, Answered, WriterTurn, WriterDeed, cadence};
ghost use Rattle.pubsub_model.specs.Answers.{AreInSpan, ArePlaced, TakesNextPlace, MovesOn, HaveRows, HeldRowsWereSent, UnnumberedRowsWereSent, NumbersNameVersions, LogFollowsTurns};

/// Each of a writer's answers, however long ago, has a place of the writer's span: from its first number on and below the
/// place of the next data frame, and a keep-alive stands there too. The next data frame has that place, and uses up one.
pub fn answers_have_places_of_their_span()
    ensures each { (s : Settings) (deeds : List WriterDeed) → AreInSpan s (cadence s deeds) }
    ensures placed { (s : Settings) (deeds : List WriterDeed) → ArePlaced s (cadence s deeds) }
    ensures new { (s : Settings) (before : List WriterDeed) (turn : WriterTurn)
        → TakesNextPlace s before turn }
    ensures next { (s : Settings) (last : Answered) (before : List Answered)
        → MovesOn s last before }
{}

/// What a reader holds, to which since its last cut nothing came but what one writer answered to turns with rows of its data set,
/// cut to the reader's fields, is the row of the writer's turn whose data frame has the held place, cut so; with no numbering it
/// is the row of some turn with a data frame.
pub fn a_held_row_was_sent()
    ensures numbered { (s : Settings) (deeds : List WriterDeed) → HeldRowsWereSent s deeds }
    ensures unnumbered { (s : Settings) (deeds : List WriterDeed) → UnnumberedRowsWereSent s deeds }
{}

/// The version that a writer's log has at the number of a place is that of the turn whose data frame has the place, where the
/// writer has sent at most 65,536 data frames.
pub fn a_number_names_its_version()
    ensures { (s : Settings) (deeds : List WriterDeed) → NumbersNameVersions s deeds }
{}

/// The versions of a writer's log never fall, where those of its turns don't.
pub fn logged_versions_never_fall()
    ensures { (s : Settings) (deeds : List WriterDeed) → LogFollowsTurns s deeds }
{}

/// Where a writer's turns have rows of one meta from each refresh to the next, so had those up to each earlier moment.
pub fn earlier_turns_had_rows_of_a_meta()
    ensures { (later before : List WriterDeed) → HaveRows (later ++ before) → HaveRows before }
{}
