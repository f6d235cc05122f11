//! Sessions to whose port other things come.
ghost use Rattle.std.specs.Prelude.{◌≡◌, Some};
ghost use Rattle.reader_group.specs.Settings.{setting_of};
ghost use Rattle.session_model.specs.Events.{reader_at};
ghost use Rattle.session_model.specs.Sends.{journal};
ghost use Rattle.session_laws.specs.Headline.{InSession};
ghost use Rattle.session_laws.specs.Newest.{ClosingGotSecured};
ghost use Rattle.session_laws.specs.Noise.{noisy_session, noisy_three_session};
ghost use Rattle.session_laws.specs.Sessions.{IsHonestFor};
ghost use Rattle.session_laws.specs.Witness.{IsNewestWhere, small_plan, small_row, three_plan, three_rows};

use crate::laws::a_closing_frame_that_came_is_held;
use group_laws::{the_built_in_groups_are_matched, the_premises_of_turns_are_met};
use ps_config::{an_accepted_configuration_is_sound, the_built_in_configuration_is_sound};

/// To a session of the built-in configuration come random bytes, datagrams of another publisher and of another version of UADP,
/// before and after the one that was sent. It meets the headline's premises, though its link isn't honest, and the reader holds
/// the row. So does a session of a signed group, to which besides a datagram of its reader's publisher, group and writer comes
/// without a signature: the reader holds the closing row.
pub fn readers_hold_on_in_noise()
    ensures noisy { InSession small_plan 0 0 0 0 noisy_session }
    ensures noisy_link { ¬ IsHonestFor (setting_of small_plan.config 0)
        (journal small_plan noisy_session) }
    ensures noisy_held { (reader_at small_plan.config 0 0 noisy_session).kept.row ≡ Some small_row }
    ensures signed { IsNewestWhere ClosingGotSecured three_plan 0 0 noisy_three_session three_rows }
{
    the_built_in_groups_are_matched();
    the_built_in_configuration_is_sound();
    the_premises_of_turns_are_met();
    an_accepted_configuration_is_sound();
    a_closing_frame_that_came_is_held();
}
