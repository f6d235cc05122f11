//! Which readers are printed, and whose frames the lines have, each law the contract of a function that does nothing.
ghost use Rattle.std.specs.Prelude.{List, Option, IsSome};
ghost use Rattle.ua_base.specs.Journal.{LinkState};
ghost use Rattle.ps_config.specs.declared.parts.Config.{Config};
ghost use Rattle.ps_config.specs.declared.parts.ReaderPart.{ReaderPart};
ghost use Rattle.session_model.specs.Keeping.{AreSteps, IsPlan};
ghost use Rattle.session_model.specs.Sends.{IsRun, TellsRun};
ghost use Rattle.session_model.specs.Steps.{Plan, Step};
ghost use Rattle.session_laws.specs.Sessions.{SamplesRise};
ghost use Rattle.json_frames.specs.Parts.{Part};
ghost use Rattle.json_text.specs.Readers.{HasRecords};
ghost use Rattle.cmd_json.specs.Jsons.{ReadsSent};
ghost use Rattle.cmd_json.specs.Matched.{IsToldIfMatched};
ghost use Rattle.cmd_json.specs.Owned.{AreOwn};

use session_laws::what_the_laws_below_say;

/// Of an accepted configuration's unsecured read groups in a dynamic layout exactly those readers are printed that are matched to a
/// writer.
pub fn matched_readers_are_told()
    ensures { (config : Config) → IsToldIfMatched config }
{}

/// What is read of what a session sent over a link that tells it is what its writers answered: of each writer of an unsecured group
/// in a dynamic layout, at its turns, with the numbers of the places that it gave. What a reader that is matched to the writer
/// keeps of it is what *Records* says of just these answers, at these places.
pub fn lines_have_their_writers_frames()
    ensures { (p : Plan) (steps : List Step) (told : Option LinkState) (parts : List Part)
        → IsPlan p → AreSteps p steps → IsRun p steps → SamplesRise p steps → TellsRun p steps told
        → ReadsSent p.config told parts → ((reader : ReaderPart) → HasRecords p.config parts reader)
        → IsSome told → AreOwn p steps parts }
{
    what_the_laws_below_say();
}
