//! Sessions, and a life, in which what comes signed was made by the sender.
ghost use Rattle.std.specs.Prelude.{◌≡◌, ℕ, Bool, List, [], ◌∷◌, map};
ghost use Rattle.reader_group.specs.Plain.{Setting};
ghost use Rattle.writer_group.specs.declared.sampled.Sampled.{Sampled};
ghost use Rattle.session_model.specs.Counts.{most_ticks};
ghost use Rattle.session_model.specs.Keeping.{AreStepsOf};
ghost use Rattle.session_model.specs.Lives.{steps_in};
ghost use Rattle.session_model.specs.Sends.{journal};
ghost use Rattle.session_model.specs.Steps.{Plan, Step};
ghost use Rattle.session_laws.specs.Delivered.{delivered_on};
ghost use Rattle.session_laws.specs.Sessions.{AreVersions, IsHonestFor, SamplesRise};
ghost use Rattle.session_laws.specs.Witness.{three_plan, three_rows, three_session};
ghost use Rattle.turn_laws.specs.Anew.{IsRekeyedBy, keyed_turns_in};
ghost use Rattle.turn_laws.specs.Lives.{IsHonestIn, IsSignedLife, between_life, renewed_tick_life, ringed_life};
ghost use Rattle.turn_laws.specs.Makers.{IsSignedSession};

use reader_group::what_a_secured_group_takes_is_signed;
use session_laws::{
    a_signed_life_meets_the_premises, each_turn_of_a_life_holds, each_turn_of_a_session_holds,
    sessions_of_each_kind_meet_the_premises,
};

/// A link is honest where nothing came yet, and after each tick whose sends are all done and a pump that gets all of them: so with
/// `what_is_sent_can_come` there are signed sessions of more and more turns. The session of a signed group, a fixed one and one
/// whose frames come in two chunks is one, for the reader of the signed group.
pub fn signed_sessions_meet_the_premises()
    ensures opening { (setting : Setting) → IsHonestFor setting [] }
    ensures delivered { (setting : Setting) (p : Plan) (ms : ℕ) (closing : Bool)
        (samples : List Sampled) (before : List Step) → IsHonestFor setting (journal p before)
        → IsHonestFor setting (journal p (delivered_on p ms closing samples before)) }
    ensures signed { IsSignedSession most_ticks three_plan 0 0 0 0 0 three_session }
{
    sessions_of_each_kind_meet_the_premises();
    each_turn_of_a_session_holds();
}

/// Lives of the three groups are such for the reader of the signed group. In one a ring with the key of the configuration and a
/// later one renews the key group after the closing tick, before the pump gets all that the tick sent (`between`). In the other
/// it does so after a tick at a second, and the closing tick is under the ring's later key: all that both send comes (`ringed`,
/// `honest`), and their samples are rows of one history (`steps`, `rise`, `versions`). The signed group's writer had a turn under
/// the configuration's token and then one under the ring's (`tokens`), to which that tick changed (`rekeyed`).
pub fn a_renewed_life_meets_the_premises()
    ensures between { IsSignedLife most_ticks three_plan 0 0 0 0 0 between_life }
    ensures ringed { IsSignedLife most_ticks three_plan 0 0 0 0 0 ringed_life }
    ensures honest { IsHonestIn three_plan 0 ringed_life }
    ensures steps { AreStepsOf most_ticks three_plan (steps_in ringed_life) }
    ensures rise { SamplesRise three_plan (steps_in ringed_life) }
    ensures versions { AreVersions three_plan (steps_in ringed_life) three_rows }
    ensures tokens { map (λ turn. turn.token) (keyed_turns_in three_plan 0 0 0 ringed_life)
        ≡ 2 ∷ 1 ∷ [] }
    ensures rekeyed { IsRekeyedBy three_plan 0 0 renewed_tick_life 0 }
{
    sessions_of_each_kind_meet_the_premises();
    a_signed_life_meets_the_premises();
    each_turn_of_a_life_holds();
    what_a_secured_group_takes_is_signed();
}
