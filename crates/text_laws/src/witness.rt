//! A relay that meets what a law asks for.
ghost use Rattle.session_laws.specs.Witness.{small_plan};
ghost use Rattle.gateway_laws.specs.Relays.{seconds};
ghost use Rattle.gateway_laws.specs.Witness.{again_config, its_sources, whole_relay};
ghost use Rattle.cmd_relay.specs.Texts.{versions_of};
ghost use Rattle.cmd_relay.specs.Numbers.{GatewayHasNumbers};

use gateway_laws::a_small_relay_meets_the_premises;

/// The relay of `a_small_relay_meets_the_premises` has numbers of 64 bits, and its reader holds a row of its data set.
pub fn a_small_relay_meets_what_is_asked()
    ensures { GatewayHasNumbers again_config (seconds whole_relay)
        (versions_of small_plan its_sources whole_relay) }
{
    a_small_relay_meets_the_premises();
}
