//! What a tap was made with.
ghost use Rattle.std.specs.Prelude.{ℕ, Option, None};
ghost use Rattle.ua_base.specs.Journal.{LinkState};
ghost use Rattle.ua_base.specs.Links.{Opening};
ghost use Rattle.ps_config.specs.declared.parts.Config.{Config};
ghost use Rattle.json_tap.specs.Made.{no_config};

use std::marker::Brand;

/// What a tap was made with, for proofs alone. A call that takes any link doesn't say that the tap that it leaves is still over the
/// link that it was made over; the tap's own type does, by these members. A call picks them at the type `Brand`.
pub trait Made {
    /// The loan of the link.
    ghost loan: { ℕ };

    /// What the link reported.
    ghost told: { Option LinkState };

    /// What it was opened with.
    ghost opening: { Option Opening };

    /// The configuration.
    ghost config: { Config };
}

impl Made for Brand {
    ghost loan = { 0 };

    ghost told = { None };

    ghost opening = { None };

    ghost config = { no_config };
}
