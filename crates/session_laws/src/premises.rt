//! What the headline asks of a link and of a session, and what is enough for it.
ghost use Rattle.std.specs.Prelude.{◌≡◌, ◌≤◌, ℕ, List};
ghost use Rattle.dataset_meta.specs.Metas.{MetaData};
ghost use Rattle.reader_group.specs.Settings.{setting_of};
ghost use Rattle.session_model.specs.Keeping.{AreStepsOf};
ghost use Rattle.session_model.specs.Sends.{IsRun, journal};
ghost use Rattle.session_model.specs.Steps.{Plan, Step};
ghost use Rattle.session_laws.specs.Sessions.{ClosesWith, HasSample, IsHonestFor, SamplesRise, TakesWhatWasSent};
ghost use Rattle.writer_group.specs.declared.sampled.Sampled.{Sampled};

use reader_group::what_a_secured_group_takes_is_signed;

/// A read group takes only what was sent, where its link delivers nothing else; and where the read group is secured, it is enough
/// that the link delivers nothing else that is signed under a key of its ring.
pub fn an_honest_link_delivers_what_was_sent()
    ensures { (p : Plan) (r : ℕ) (steps : List Step) → IsRun p steps
        → IsHonestFor (setting_of p.config r) (journal p steps) → TakesWhatWasSent p r steps }
{
    what_a_secured_group_takes_is_signed();
}

/// A session has one closing tick at most, whose sample of a data set is of one version; no tick sampled a later one.
pub fn a_session_closes_once_with_its_newest_versions()
    ensures once { (limit : ℕ) (p : Plan) (steps : List Step) (index one other : ℕ)
        → AreStepsOf limit p steps → ClosesWith steps index one
        → ClosesWith steps index other → one ≡ other }
    ensures newest { (limit : ℕ) (p : Plan) (steps : List Step) (index version : ℕ) (now : MetaData)
        (sample : Sampled) → AreStepsOf limit p steps → SamplesRise p steps
        → ClosesWith steps index version → HasSample p steps index now sample
        → sample.version ≤ version }
{}
