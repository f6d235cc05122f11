//! Laws on where a session stands.
ghost use Rattle.std.specs.Prelude.{◌↔◌, ◌<◌, ℕ, List, map};
ghost use Rattle.session_model.specs.Lives.{Lived, Stepped, log_in};
ghost use Rattle.session_model.specs.Steps.{Plan, Step};
ghost use Rattle.pubsub_engine.specs.declared.session.Session.{Session as SessionValue};
ghost use Rattle.pubsub_engine.specs.Holding.{ticks_of};
ghost use Rattle.pubsub_engine.specs.Living.{StandsIn};
ghost use Rattle.pubsub_engine.specs.Logs.{HasOwnNumbers};
ghost use Rattle.pubsub_engine.specs.Standing.{Stands};

/// Where no ring renews a session, a life leaves it where its steps do.
pub fn a_session_that_is_not_renewed_stands_behind_its_steps()
    ensures { (p : Plan) (steps : List Step) (s : SessionValue)
        → Stands p steps s ↔ StandsIn p (map Stepped steps) s }
{}

/// Where at most 65,536 ticks may come, the closing one included, no two data frames of a writer have the same number of 16 bits,
/// whichever rings renew the session's keys. So a number that a reader holds is that of one data frame.
pub fn each_data_frame_has_its_own_number()
    ensures { (p : Plan) (life : List Lived) (s : SessionValue)
        → StandsIn p life s → ticks_of s < 65536
        → (g w : ℕ) → HasOwnNumbers (log_in p life g w) }
{}
