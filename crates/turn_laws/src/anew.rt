//! The key frames with which a writer begins under each token of a life, in which rings renew its key group.
ghost use Rattle.std.specs.Prelude.{◌≡◌, ◌+◌, ◌<◌, ◌++◌, ℕ, Bool, true, List, ◌∷◌, length, map, Some};
ghost use Rattle.pubsub_model.specs.Cadence.{WriterTurn, cadence, is_key};
ghost use Rattle.writer_group.specs.declared.sampled.Sampled.{Sampled};
ghost use Rattle.writer_group.specs.Parts.{group_at};
ghost use Rattle.session_model.specs.Deeds.{group_past};
ghost use Rattle.session_model.specs.Lives.{Lived, Stepped, account_in, steps_in};
ghost use Rattle.session_model.specs.Steps.{Plan, Tick, moment_of};
ghost use Rattle.session_model.specs.Turns.{deeds_till};
ghost use Rattle.session_laws.specs.Fresh.{BeginWithKeys, IsAnsweredWhole, KeyedTurn};
ghost use Rattle.session_laws.specs.Pasts.{settings_at};
ghost use Rattle.session_laws.specs.Renewals.{deeds_in_life};
ghost use Rattle.turn_laws.specs.Anew.{IsRekeyedBy, answered_in, keyed_turns_in};

use writer_group::a_refreshed_writer_sends_a_key_frame;

/// In a life too, whichever rings renew a key group, in whichever order and with whichever tokens, a writer's first frame under
/// each token is a key frame (`first`). So a writer of a group whose token changes at a tick answers with one at its next turn,
/// at whichever later tick and after whichever further rings (`next`), and if it has a turn at that tick there (`at_once`). The
/// turns that these clauses speak of are the writer's, with its answers (`turns`), which it gave to what it did in the life
/// (`deeds`).
pub fn a_new_token_begins_with_key_frames_in_a_life()
    ensures first { (p : Plan) (k g w : ℕ) (life : List Lived)
        → (group_at p.config g).keygroup ≡ Some k → w < length (group_at p.config g).writer
        → BeginWithKeys (keyed_turns_in p k g w life) }
    ensures next { (p : Plan) (k g w ms : ℕ) (closing : Bool) (samples : List Sampled)
        (done : List Bool) (later before : List Lived) (more : List KeyedTurn) (turn : KeyedTurn)
        → IsRekeyedBy p g w before ms
        → keyed_turns_in p k g w (later ++ Stepped (Tick ms closing samples done) ∷ before)
        ≡ more ++ turn ∷ keyed_turns_in p k g w before
        → is_key turn.answered ≡ true }
    ensures at_once { (p : Plan) (g w ms : ℕ) (closing : Bool) (samples : List Sampled)
        (before : List Lived) (turn : WriterTurn) → IsRekeyedBy p g w before ms
        → let now = moment_of (steps_in before) + ms in
        let till = deeds_till p (steps_in before) now closing samples (account_in p before).deeds g in
        IsAnsweredWhole p.config (group_past p.config g till) g w turn }
    ensures turns { (p : Plan) (k g w : ℕ) (life : List Lived)
        → map (λ turn. turn.answered) (keyed_turns_in p k g w life) ≡ answered_in p g w life }
    ensures deeds { (p : Plan) (g w : ℕ) (life : List Lived)
        → cadence (settings_at (group_at p.config g) w) (deeds_in_life p g w life)
        ≡ answered_in p g w life }
{
    a_refreshed_writer_sends_a_key_frame();
}
