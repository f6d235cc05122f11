//! Laws over lives, in which rings renew a session's keys, each the contract of a function that does nothing. A life is a list of
//! steps and renewals, the latest first.
ghost use Rattle.std.specs.Prelude.{◌≡◌, ◌<◌, ◌≤◌, ◌∷◌, ◌++◌, ℕ, List, length, true, AllPairs};
ghost use Rattle.std.specs.List.Sorted.{IsNonDecreasingBy};
ghost use Rattle.dataset_meta.specs.DataValues.{DataValue};
ghost use Rattle.pubsub_model.specs.Cadence.{HadTurn, WriterDeed, WriterTurn, is_data};
ghost use Rattle.writer_group.specs.Parts.{group_at};
ghost use Rattle.writer_group.specs.Payloads.{writer_at};
ghost use Rattle.group_keys.specs.Ring.{key_sets};
ghost use Rattle.message_guard.specs.Modes.{is_secured};
ghost use Rattle.message_guard.specs.Senders.{HaveOtherNumbers};
ghost use Rattle.reader_group.specs.Settings.{setting_of};
ghost use Rattle.session_model.specs.Counts.{most_ticks};
ghost use Rattle.session_model.specs.Keeping.{AreStepsOf, IsPlan};
ghost use Rattle.session_model.specs.Lives.{Lived, log_in, steps_in};
ghost use Rattle.session_model.specs.Steps.{Plan};
ghost use Rattle.session_laws.specs.Headline.{PublishesVersion, answered_turn};
ghost use Rattle.session_laws.specs.Pasts.{settings_at};
ghost use Rattle.session_laws.specs.Sessions.{AreVersions, SamplesRise};
ghost use Rattle.session_laws.specs.Renewals.{AreDistinctPairs, HasShortTokens, HaveShortTokens, TokensRise, deeds_in_life, protected_in_life, renewed_life, taken_in_life, token_in_life};
ghost use Rattle.session_laws.specs.Witness.{three_plan, three_rows};

use crate::turning::each_turn_of_a_life_holds;
use group_keys::Ring;
use group_laws::the_premises_of_turns_are_met;
use ps_config::an_accepted_configuration_is_sound;
use reader_group::a_renewed_group_takes_no_pair_twice;
use row_words::cut_rows_have_words;
use writer_group::no_token_and_number_come_twice_in_groups;

/// Every data message of a writer stands for one whole version of its data set's single history in a life too, and never an older
/// one than its last, whichever rings renew the session's keys in between. Up to each turn with a data frame the writer's frames
/// publish the row of the turn's version, cut to the fields that the data set had then. The versions of its log never fall, where
/// those that are sampled of a data set don't. It is so however many ticks come.
pub fn data_messages_stand_for_versions_in_a_life()
    ensures publish { (limit : ℕ) (p : Plan) (g w : ℕ) (life : List Lived)
        (rows : ℕ → ℕ → List DataValue) (later before : List WriterDeed) (turn : WriterTurn)
        → IsPlan p → AreStepsOf limit p (steps_in life) → SamplesRise p (steps_in life)
        → AreVersions p (steps_in life) rows → w < length (group_at p.config g).writer
        → deeds_in_life p g w life ≡ later ++ HadTurn turn ∷ before
        → let part = writer_at (group_at p.config g) w in
        let s = settings_at (group_at p.config g) w in is_data (answered_turn s before turn) ≡ true
        → PublishesVersion p (steps_in life) s part.dataset rows before turn }
    ensures never_older { (limit : ℕ) (p : Plan) (g w : ℕ) (life : List Lived) → IsPlan p
        → AreStepsOf limit p (steps_in life) → SamplesRise p (steps_in life)
        → w < length (group_at p.config g).writer
        → IsNonDecreasingBy (λ entry. entry.1) (log_in p life g w) }
{
    cut_rows_have_words();
}

/// No two datagrams of a life that one key group protects have the same token and number, over any link, whichever rings renew the
/// key group in between, in whichever order and with whichever tokens, and however long it lasts.
pub fn no_token_and_number_come_twice_in_a_life()
    ensures { (limit : ℕ) (p : Plan) (k : ℕ) (life : List Lived) → IsPlan p
        → AreStepsOf limit p (steps_in life) → HasShortTokens life → k < length p.config.keygroup
        → AllPairs HaveOtherNumbers (protected_in_life p k life) }
{
    no_token_and_number_come_twice_in_groups();
    each_turn_of_a_life_holds();
}

/// No secured read group takes a pair of token and number twice in a life, whichever rings renew its keys in between.
pub fn no_pair_is_taken_twice_in_a_life()
    ensures { (p : Plan) (r : ℕ) (life : List Lived)
        → is_secured (setting_of p.config r).setup.mode ≡ true
        → AreDistinctPairs (taken_in_life p r life) }
{
    a_renewed_group_takes_no_pair_twice();
}

/// Tokens never fall in a life: neither the one under which a key group protects, also where a ring has lower tokens alone, nor
/// those of the datagrams that a secured read group takes.
pub fn tokens_never_fall_in_a_life()
    ensures protects { (p : Plan) (k : ℕ) (later before : List Lived)
        → token_in_life p k before ≤ token_in_life p k (later ++ before) }
    ensures takes { (p : Plan) (r : ℕ) (life : List Lived)
        → is_secured (setting_of p.config r).setup.mode ≡ true
        → TokensRise (taken_in_life p r life) }
{}

/// The tokens of a ring have 32 bits each, so a life whose rings were in memory has short tokens.
pub fn a_ring_has_short_tokens(ring: &Ring)
    ensures { HaveShortTokens (key_sets ring.now) }
{
    let _sets = ring.key_sets();
}

/// A session of a signed group that a ring renews after its closing tick lives so: its plan, its steps, its samples and its ring
/// are what the laws of a life ask for, and its key group is there.
pub fn a_signed_life_meets_the_premises()
    ensures plan { IsPlan three_plan }
    ensures steps { AreStepsOf most_ticks three_plan (steps_in renewed_life) }
    ensures short { HasShortTokens renewed_life }
    ensures there { 0 < length three_plan.config.keygroup }
    ensures rise { SamplesRise three_plan (steps_in renewed_life) }
    ensures versions { AreVersions three_plan (steps_in renewed_life) three_rows }
{
    the_premises_of_turns_are_met();
    an_accepted_configuration_is_sound();
}
