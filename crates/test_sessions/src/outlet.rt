//! A gateway that is shown nothing.
use gateway_core::Gateway;
use ps_config::Config;

/// A gateway of a second configuration. It is shown nothing of the first, so it publishes the opening row.
#[derive(Drop)]
pub struct Outlet<'c> {
    pub config: &'c Config,
    pub gateway: Gateway<'c>,
    /// How many ticks may come before the closing one.
    pub ticks: u64,
}
