//! Laws of texts, each the contract of a function that does nothing.
ghost use Rattle.std.specs.Prelude.{ℕ, List, Option, IsSome};
ghost use Rattle.ua_base.specs.Journal.{LinkState};
ghost use Rattle.ps_config.specs.declared.parts.Config.{Config};
ghost use Rattle.ps_script.specs.declared.script.Script.{Script};
ghost use Rattle.ps_report.specs.declared.closed.Closed.{Closed};
ghost use Rattle.report_laws.specs.Reported.{IsReported};
ghost use Rattle.json_tap.specs.Transcoding.{Message, line};
ghost use Rattle.session_model.specs.Steps.{Step};
ghost use Rattle.gateway_core.specs.declared.collected.StoreVersion.{StoreVersion};
ghost use Rattle.script_player.specs.Plays.{plan_by};
ghost use Rattle.cmd_json.specs.Jsons.{IsJsonOf};
ghost use Rattle.cmd_json.specs.Owned.{AreOwn};
ghost use Rattle.cmd_relay.specs.Texts.{IsTextOf};
ghost use Rattle.cmd_relay.specs.Numbers.{GatewayHasNumbers};
ghost use Rattle.text_laws.specs.Gateways.{AreGatewaysAlike};
ghost use Rattle.text_laws.specs.Lines.{AreLinesAlike, IsOneLine};

use json_frames::elements_are_read_one_way;

/// The line that `json` writes of a message has no byte below a space, and so no line feed, whatever its texts have.
pub fn a_line_of_json_is_one_line()
    ensures { (config : Config) (number : ℕ) (message : Message)
        → IsOneLine (line config number message) }
{}

/// Two runs of `json` with one configuration that have the same text have the same lines, and as many datagrams without one,
/// where their links tell their journals. Read of the lines are the same parts, so each reader is described alike, and the frames
/// that are read of the one are those that the other's writers answered.
pub fn a_text_of_json_tells_its_lines()
    ensures lines { (config : Config) (script other : Script) (told tells : Option LinkState)
        (text : List ℕ) → (one : IsJsonOf config script told text)
        → (its : IsJsonOf config other tells text) → IsSome told → IsSome tells
        → AreLinesAlike one.lines its.lines one.parts its.parts one.skipped its.skipped }
    ensures own { (config : Config) (script other : Script) (told tells : Option LinkState)
        (text : List ℕ) → (one : IsJsonOf config script told text)
        → (its : IsJsonOf config other tells text) → IsSome told → IsSome tells
        → AreOwn (plan_by config other) its.played.steps one.parts }
{
    elements_are_read_one_way();
}

/// Two relays with the same configurations that have the same text tell the same of their gateways. Of each writer they tell the
/// same places with the same stores. Of each matched reader they tell the same row with its number, its store and the version of
/// this, or the same reason why there is none. They tell the same counts of the link.
pub fn a_text_of_a_relay_tells_one_gateway()
    ensures { (first second : Config) (one other : Closed) (steps others : List Step)
        (kept stores : ℕ → List StoreVersion) (text : List ℕ) → IsReported first one
        → IsReported first other → GatewayHasNumbers second steps kept
        → GatewayHasNumbers second others stores → IsTextOf first one second steps kept text
        → IsTextOf first other second others stores text
        → AreGatewaysAlike second steps others kept stores }
{}
