//! What is promised of turns holds in each session, and in each life of one.
ghost use Rattle.std.specs.Prelude.{ℕ, List};
ghost use Rattle.session_model.specs.Steps.{Plan, Step};
ghost use Rattle.session_model.specs.Keeping.{AreStepsOf, IsPlan};
ghost use Rattle.session_model.specs.Lives.{Lived, TurnsHoldIn, steps_in};
ghost use Rattle.session_model.specs.Turns.{TurnsHold};
ghost use Rattle.session_laws.specs.Renewals.{HasShortTokens};

use row_words::cut_rows_have_words;
use writer_group::{
    a_turn_makes_at_most_1024_datagrams, each_answer_is_a_frame, headers_of_a_turn_can_be_written,
};

/// Each turn of a session's groups has headers that can be written, answers that are frames of their data sets, and at most 1,024
/// datagrams, secured or not, whatever fields are appended, and however many ticks come.
pub fn each_turn_of_a_session_holds()
    ensures { (limit : ℕ) (p : Plan) (steps : List Step) → IsPlan p → AreStepsOf limit p steps
        → TurnsHold p steps }
{
    cut_rows_have_words();
    headers_of_a_turn_can_be_written();
    each_answer_is_a_frame();
    a_turn_makes_at_most_1024_datagrams();
}

/// So has each turn of a life, whichever rings renew its senders: their tokens have 32 bits, as those of each ring in memory.
pub fn each_turn_of_a_life_holds()
    ensures { (limit : ℕ) (p : Plan) (life : List Lived) → IsPlan p
        → AreStepsOf limit p (steps_in life) → HasShortTokens life → TurnsHoldIn p life }
{
    cut_rows_have_words();
    headers_of_a_turn_can_be_written();
    each_answer_is_a_frame();
    a_turn_makes_at_most_1024_datagrams();
}
