//! Laws on where a gateway stands.
ghost use Rattle.std.specs.Prelude.{◌↔◌, List, map};
ghost use Rattle.ps_config.specs.declared.parts.Config.{Config as ConfigValue};
ghost use Rattle.session_model.specs.Lives.{Stepped};
ghost use Rattle.gateway_core.specs.declared.gateway.Gateway.{Gateway as GatewayValue};
ghost use Rattle.gateway_core.specs.Lived.{GatewayStep};
ghost use Rattle.gateway_core.specs.Living.{StandsIn};
ghost use Rattle.gateway_core.specs.Standing.{Stands, steps_of};

/// Where no ring renews a gateway, a life leaves it where its steps do.
pub fn a_gateway_that_is_not_renewed_stands_behind_its_steps()
    ensures { (second : ConfigValue) (lived : List GatewayStep) (s : GatewayValue)
        → Stands second lived s ↔ StandsIn second lived (map Stepped (steps_of s lived)) s }
{}
