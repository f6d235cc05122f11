//! A relay that meets the premises of the laws.
ghost use Rattle.std.specs.Prelude.{◌≡◌, Ok, Some, [], ◌∷◌};
ghost use Rattle.ps_config.specs.Reading.{configuration};
ghost use Rattle.version_cell.specs.Cells.{IsCell};
ghost use Rattle.version_cell.specs.Passes.{IsPassOf, SeesLawful};
ghost use Rattle.session_model.specs.Deeds.{log_at};
ghost use Rattle.session_model.specs.Events.{reader_at};
ghost use Rattle.session_laws.specs.Sessions.{AreVersions};
ghost use Rattle.session_laws.specs.Witness.{small_plan, small_row, small_rows, whole_session};
ghost use Rattle.gateway_core.specs.Lived.{plan_again};
ghost use Rattle.gateway_core.specs.Sources.{HaveSources as HaveIndexes};
ghost use Rattle.gateway_laws.specs.Gateways.{IsHonestAgain, IsHonestSource, IsRelay};
ghost use Rattle.gateway_laws.specs.Lives.{Lives};
ghost use Rattle.gateway_laws.specs.Origins.{CameWith, IsUncutBetween, WasMade};
ghost use Rattle.gateway_laws.specs.Relays.{firsts, seconds};
ghost use Rattle.gateway_laws.specs.Telling.{AreUncut, HoldsTold, IsNumbered};
ghost use Rattle.gateway_laws.specs.Versions.{HasStored};
ghost use Rattle.gateway_laws.specs.Witness.{again_config, again_text, first_relay, first_source, held_store, its_cell, its_sources, last_round, pass_with, seven_entry, whole_life, whole_relay};

use ps_config::{an_accepted_configuration_is_sound, the_built_in_configuration_is_sound};
use session_laws::small_sessions_meet_the_premises;

/// A gateway after the first run: the session is that of the built-in configuration with a tick and the closing one, and the second
/// configuration, which is accepted, has the data set of its reader. All that is sent comes, over both links. After the first round
/// the second reader holds store 1, after the last one store 2, both of version 1, and nothing is cut. So the premises of each law
/// of gateways are met.
pub fn a_small_relay_meets_the_premises()
    ensures accepted { configuration again_text ≡ Ok again_config }
    ensures relay { IsRelay small_plan again_config its_sources whole_relay }
    ensures versions { AreVersions small_plan (firsts whole_relay) small_rows }
    ensures honest_source { IsHonestSource small_plan first_source (firsts whole_relay) }
    ensures honest_again { IsHonestAgain again_config 0 whole_relay }
    ensures numbered { IsNumbered again_config 0 0 0 0 }
    ensures logged { log_at (plan_again again_config) 0 0 (seconds whole_relay)
        ≡ (0, 1) ∷ (1, 2) ∷ [] }
    ensures held { (reader_at again_config 0 0 (seconds whole_relay)).kept.row ≡ Some small_row }
    ensures earlier { HoldsTold small_plan again_config first_source first_relay 0 0 0 0 1 1 }
    ensures later { HoldsTold small_plan again_config first_source whole_relay 0 0 0 0 2 1 }
    ensures uncut { AreUncut small_plan again_config first_source (last_round ∷ [])
        first_relay 0 0 0 0 1 }
    ensures made { WasMade small_plan first_source whole_session 2 (held_store 1) }
    ensures came { (old : CameWith small_plan first_source whole_session 1 1)
        × (new : CameWith small_plan first_source whole_session 2 1)
        × IsUncutBetween small_plan 0 0 0 0 old.was.now new.was.now }
    ensures indexes { HaveIndexes small_plan.config again_config (0 ∷ []) }
    ensures lives { Lives small_plan (0 ∷ []) its_sources whole_relay whole_life }
    ensures cell { IsCell its_cell }
    ensures pass { let pass = pass_with (seven_entry ∷ seven_entry ∷ []) in IsPassOf its_cell pass
        × SeesLawful pass × HasStored (held_store 1 ∷ held_store 0 ∷ []) its_cell.meta pass }
{
    the_built_in_configuration_is_sound();
    an_accepted_configuration_is_sound();
    small_sessions_meet_the_premises();
}
