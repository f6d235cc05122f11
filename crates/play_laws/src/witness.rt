//! A script with a fate, played over a link in memory.
ghost use Rattle.std.specs.Prelude.{[], ◌∷◌, ℕ, List, codes, Some, None, Ok};
ghost use Rattle.pubsub_model.specs.declared.reading.Why.TheVariants.{Start};
ghost use Rattle.ua_base.specs.declared.link.Fate.{Fate};
ghost use Rattle.ua_base.specs.declared.link.Fate.TheVariants as fates;
ghost use Rattle.mem_edge.specs.declared.memory_link.MemoryLink.{MemoryLink as LinkValue};
ghost use Rattle.mem_edge.specs.MemoryLinks.{told_by};
ghost use Rattle.ps_config.specs.BuiltIn.{built_in_config};
ghost use Rattle.ps_report.specs.declared.closed.Closed.{Closed};
ghost use Rattle.ps_script.specs.Sound.{IsScript};
ghost use Rattle.session_laws.specs.Witness.{small_row};
ghost use Rattle.script_player.specs.Plays.{IsPlayOf};
ghost use Rattle.play_laws.specs.Reports.{ReportsSo, both_lost_run, both_lost_text, first_lost_run, first_lost_text, last_lost_run, last_lost_text};
ghost use Rattle.play_laws.specs.Small.{EndsBehind, IsNewLink, IsPlayedOver, IsReadAs, PlaysOver, both_lost, first_lost, last_lost, small_script};

/// The script `write 0 demo a=7`, `tick 100` with `fate 0 drop`, with `fate 1 drop` or with both is a script of the built-in
/// configuration, which `play_script` asks for.
pub fn a_script_with_a_fate_is_a_script()
    ensures first { IsScript built_in_config (small_script ((0, fates.Drop) ∷ [])) }
    ensures last { IsScript built_in_config (small_script ((1, fates.Drop) ∷ [])) }
    ensures both { IsScript built_in_config (small_script ((0, fates.Drop) ∷ (1, fates.Drop) ∷ [])) }
{}

/// And each is what its text is accepted as where links have fates, as those in memory do.
pub fn a_script_with_a_fate_is_read_so()
    ensures first { IsReadAs (codes "write 0 demo a=7\ntick 100\nfate 0 drop\n") ((0, fates.Drop) ∷ []) }
    ensures last { IsReadAs (codes "write 0 demo a=7\ntick 100\nfate 1 drop\n") ((1, fates.Drop) ∷ []) }
    ensures both { IsReadAs (codes "write 0 demo a=7\ntick 100\nfate 0 drop\nfate 1 drop\n")
        ((0, fates.Drop) ∷ (1, fates.Drop) ∷ []) }
{}

/// The script `write 0 demo a=7`, `tick 100` with a fate, played with the built-in configuration over a link in memory that was
/// made to do nothing of its own and tells to the end. With `fate 0 drop` the reader gets no start from the first tick, whose key
/// frame is lost, and holds the closing one, number 1. With `fate 1 drop` it holds the first, number 0. With both it waits for its
/// start. The closed session, and so its report, is that of just these steps.
pub fn a_script_with_a_fate_ends_so()
    ensures first { (link : LinkValue) (closed : Closed)
        → IsPlayedOver link ((0, fates.Drop) ∷ []) closed
        → EndsBehind first_lost closed (Some small_row) (Some 1) Start }
    ensures last { (link : LinkValue) (closed : Closed)
        → IsPlayedOver link ((1, fates.Drop) ∷ []) closed
        → EndsBehind last_lost closed (Some small_row) (Some 0) Start }
    ensures both { (link : LinkValue) (closed : Closed)
        → IsPlayedOver link ((0, fates.Drop) ∷ (1, fates.Drop) ∷ []) closed
        → EndsBehind both_lost closed None None Start }
{}

/// And its report is this text. With `fate 0 drop` one datagram was received, and the reader has number 1 and version 1. With
/// `fate 1 drop` it has number 0. With both none was received, and the reader waits for its start.
pub fn a_script_with_a_fate_reports_so()
    ensures first { (link : LinkValue) (closed : Closed)
        → IsPlayedOver link ((0, fates.Drop) ∷ []) closed
        → ReportsSo closed first_lost_run first_lost_text }
    ensures last { (link : LinkValue) (closed : Closed)
        → IsPlayedOver link ((1, fates.Drop) ∷ []) closed
        → ReportsSo closed last_lost_run last_lost_text }
    ensures both { (link : LinkValue) (closed : Closed)
        → IsPlayedOver link ((0, fates.Drop) ∷ (1, fates.Drop) ∷ []) closed
        → ReportsSo closed both_lost_run both_lost_text }
{}

/// What `play_script` says of a play of such a script over a link in memory that was made anew to do nothing of its own is that the
/// script was played over it so.
pub fn a_play_over_a_new_link_is_played_over_it()
    ensures { (old new : LinkValue) (fates : List (ℕ × Fate)) (closed : Closed) → IsNewLink old
        → PlaysOver old new fates (Ok closed)
        → IsPlayOf built_in_config (small_script fates) (told_by new) closed
        → IsPlayedOver new fates closed }
{}
