//! What turns of lanes are in a session.
ghost use Rattle.std.specs.Prelude.{◌≡◌, List};
ghost use Rattle.ps_config.specs.declared.parts.Config.{Config};
ghost use Rattle.session_model.specs.Deeds.{deeds};
ghost use Rattle.session_model.specs.Steps.{Step};
ghost use Rattle.lane_groups.specs.Deeds.{plan_of, turns_deeds};
ghost use Rattle.lane_groups.specs.Turns.{AreTurns};
ghost use Rattle.lane_groups.specs.declared.turn.TurnIn.{TurnIn};

/// What the publisher does in the turns of lanes is what it does in a session with a tick for each, in which all components are
/// enabled and no data set grows. It is so whatever becomes of its sends, and whatever its pumps receive.
pub fn turns_are_ticks_of_a_session()
    ensures { (config : Config) (steps : List Step) (turns : List TurnIn) → AreTurns steps turns
        → deeds (plan_of config) steps ≡ turns_deeds config turns }
{}
