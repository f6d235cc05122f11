//! Laws of reports, each the contract of a function that does nothing.
ghost use Rattle.std.specs.Prelude.{◌≡◌, ◌++◌, ℕ, List, Some};
ghost use Rattle.ua_base.specs.Output.{appended};
ghost use Rattle.ps_config.specs.BuiltIn.{built_in_config};
ghost use Rattle.ps_config.specs.declared.parts.Config.{Config};
ghost use Rattle.ps_report.specs.declared.closed.Closed.{Closed};
ghost use Rattle.ps_report.specs.Conditions.{IsClosedOf};
ghost use Rattle.ps_report.specs.FirstRun.{first_run};
ghost use Rattle.ps_report.specs.Reports.{end_line, load_text, load_versions, report_text};
ghost use Rattle.report_laws.specs.Alike.{AreSummedAlike, AreToldAlike};
ghost use Rattle.report_laws.specs.Numbers.{HasNumbers, IsNumber};
ghost use Rattle.report_laws.specs.ReaderNames.{NamesReaders};
ghost use Rattle.report_laws.specs.Reported.{IsReported};

use ps_report::a_report_reads_so;

/// Two closed sessions of one configuration that have the same report are described alike: its histories, states, counts, logs,
/// rows that are held with their numbers and versions, reasons, breaks, looks and counts of the link are those of both.
pub fn a_report_tells_one_session()
    ensures { (config : Config) (one other : Closed) → NamesReaders config → HasNumbers one
        → HasNumbers other → IsClosedOf config one → IsClosedOf config other
        → report_text config one ≡ report_text config other → AreToldAlike one other }
{}

/// Where what was written before a report is told, what is written with it tells its session: that of any other session with the
/// same bytes is described alike.
pub fn what_is_written_tells_one_session()
    ensures { (config : Config) (one other : Closed) (before : List ℕ)
        → IsReported config one → IsReported config other
        → appended (Some before) (report_text config one)
        ≡ appended (Some before) (report_text config other) → AreToldAlike one other }
{}

/// So do its lines before the last, whatever is written after them; and what is written there is the same.
pub fn what_begins_with_a_report_tells_its_session()
    ensures { (config : Config) (one other : Closed) (front back rest others : List ℕ)
        → IsReported config one → IsReported config other
        → front ++ end_line ≡ report_text config one → back ++ end_line ≡ report_text config other
        → front ++ rest ≡ back ++ others → AreToldAlike one other × (rest ≡ others) }
{}

/// Two closed sessions of the built-in configuration that have the same summary are described alike by it: their histories are as
/// long, and their readers hold one row, or wait for one reason.
pub fn a_summary_tells_one_row()
    ensures { (one other : Closed) (n ticks : ℕ)
        → IsReported built_in_config one → IsReported built_in_config other
        → IsNumber (load_versions one.histories) → IsNumber (load_versions other.histories)
        → load_text built_in_config one n ticks ≡ load_text built_in_config other n ticks
        → AreSummedAlike one other }
{}

/// And those that are described alike have the same report.
pub fn a_report_is_of_what_it_tells()
    ensures { (config : Config) (one other : Closed) → AreToldAlike one other
        → report_text config one ≡ report_text config other }
{}

/// What the first law asks for, a small session has: that of `a_report_reads_so`.
pub fn a_small_session_meets_what_is_asked()
    ensures names { NamesReaders built_in_config }
    ensures numbers { HasNumbers first_run }
    ensures closed { IsClosedOf built_in_config first_run }
{
    a_report_reads_so();
}
