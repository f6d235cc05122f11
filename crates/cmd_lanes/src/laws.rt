//! What lanes are beside a play, and what their text tells.
ghost use Rattle.std.specs.Prelude.{◌≡◌, List, None, reverse, true};
ghost use Rattle.ps_config.specs.declared.parts.Config.{Config};
ghost use Rattle.ps_report.specs.declared.closed.WatchEnd.{WatchEnd};
ghost use Rattle.ps_script.specs.declared.script.Script.{Script};
ghost use Rattle.session_model.specs.Deeds.{deeds};
ghost use Rattle.session_model.specs.Steps.{Step};
ghost use Rattle.script_player.specs.Playing.{IsPlayed, IsTickedBy};
ghost use Rattle.script_player.specs.Plays.{plan_by};
ghost use Rattle.cmd_lanes.specs.Alike.{AreToldAlike, HaveNumbers};
ghost use Rattle.cmd_lanes.specs.Scripts.{refusal, ticks_of};
ghost use Rattle.cmd_lanes.specs.Sends.{Counts};
ghost use Rattle.cmd_lanes.specs.Texts.{Logs, lanes_text};

/// Of a script that lanes take, the publisher does at the ticks of the lanes what it does in a play of the script, whatever becomes
/// of the play's sends and whatever its pumps receive. So lanes send the datagrams of a play, group by group, and log the same.
pub fn lanes_do_what_a_play_does()
    ensures { (config : Config) (script : Script) (earlier steps : List Step)
        (looks : List WatchEnd) → refusal script ≡ None
        → IsPlayed (plan_by config script) (reverse script.lines) earlier looks
        → IsTickedBy (plan_by config script) (reverse script.lines) 0 true earlier steps
        → deeds (plan_by config script) steps ≡ deeds (plan_by config script) (ticks_of script) }
{}

/// Two runs of lanes with one configuration that have the same text are described alike: as many datagrams of each group and of
/// all were sent, as many couldn't be, and each writer has the same log.
pub fn a_text_of_lanes_tells_one_run()
    ensures { (config : Config) (one other : Counts) (logs others : Logs)
        → HaveNumbers config one logs → HaveNumbers config other others
        → lanes_text config one logs ≡ lanes_text config other others
        → AreToldAlike config one other logs others }
{}
