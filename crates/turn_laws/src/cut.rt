//! What the beginning of a log tells.
ghost use Rattle.std.specs.Prelude.{◌⊎◌, ◌<◌, ℕ, List};
ghost use Rattle.session_model.specs.Keeping.{AreStepsOf};
ghost use Rattle.session_model.specs.Lives.{Lived, log_in, steps_in};
ghost use Rattle.session_model.specs.Steps.{Plan};
ghost use Rattle.turn_laws.specs.Cut.{TellsAsWhole};

/// Where the beginning of a writer's log has a version at a number of 16 bits, the whole log has it there too. It is so in a
/// session of at most 65,536 ticks, the closing one included, or in one whose logs keep as many data frames as ticks may come,
/// whichever rings renew it. So a session that tells versions tells that of no other data frame than its whole logs do.
pub fn a_cut_log_tells_no_other_version()
    ensures { (ticks most : ℕ) (p : Plan) (life : List Lived) → AreStepsOf ticks p (steps_in life)
        → (ticks < 65536) ⊎ (ticks < most) → (g w : ℕ) → TellsAsWhole most (log_in p life g w) }
{}
