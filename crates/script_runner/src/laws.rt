//! Laws of runs, each the contract of a function that does nothing.
ghost use Rattle.std.specs.Prelude.{Option};
ghost use Rattle.ua_base.specs.Journal.{LinkState};
ghost use Rattle.ps_config.specs.declared.parts.Config.{Config};
ghost use Rattle.ps_report.specs.declared.closed.Closed.{Closed};
ghost use Rattle.ps_script.specs.declared.script.Script.{Script};
ghost use Rattle.ps_script.specs.Sound.{IsScript};
ghost use Rattle.script_player.specs.Plays.{IsPlayOf};
ghost use Rattle.script_runner.specs.Played.{IsRunInOrder, WritesLegally};

use app_threads::closed_histories_are_legal;
use row_words::{patched_words_belong, words_belong_by_shape};
use version_cell::histories_are_the_models;

/// The rows of a played script are those of legal histories of its threads' writes: in the history of a data set each thread has
/// all of its writes there, in order, and these determine the row of every version.
pub fn a_played_script_writes_legal_histories()
    ensures { (config : Config) (script : Script)
        → IsScript config script → WritesLegally config script }
{
    histories_are_the_models();
    closed_histories_are_legal();
    words_belong_by_shape();
    patched_words_belong();
}

/// A played script is a run of it, with the same steps, in which the threads write in the order of the lines.
pub fn a_played_script_is_a_run()
    ensures { (config : Config) (script : Script) (told : Option LinkState) (closed : Closed)
        → IsScript config script → (play : IsPlayOf config script told closed)
        → IsRunInOrder config script told closed play }
{
    histories_are_the_models();
    closed_histories_are_legal();
    words_belong_by_shape();
    patched_words_belong();
}
