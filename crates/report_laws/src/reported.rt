//! What the types say of a closed session and its configuration, by a function that walks through both.
ghost use Rattle.ps_config.specs.Sound.{IsSound};
ghost use Rattle.ps_report.specs.Conditions.{IsClosedOf};
ghost use Rattle.report_laws.specs.Reported.{IsReported};

use crate::names::readers_are_told_by_their_names;
use crate::numbers::closed_sessions_have_numbers;
use ps_config::Config;
use ps_report::Closed;

/// A closed session of a sound configuration is one that its report tells.
pub fn closed_sessions_are_reported(config: &Config, closed: &Closed)
    requires sound { IsSound config.now }
    requires closed { IsClosedOf config.now closed.now }
    ensures { IsReported config.now closed.now }
{
    readers_are_told_by_their_names(config);
    closed_sessions_have_numbers(closed);
}
