//! A device in one program: a configuration is read, a group of writers has a turn, and a read group takes the datagram that the
//! turn makes. The row that the reader holds then is printed, a field a line.
#![tactic(auto)]

ghost use Rattle.std.specs.Prelude.{IfOk};
ghost use Rattle.writer_group.specs.Standing.{IsGood};

mod configuration;
mod fault;
mod publishing;
mod readings;
mod subscribing;

use crate::configuration::CONFIGURATION;
use crate::fault::DeviceFault;
use crate::publishing::datagram_of_a_turn;
use crate::readings::readings;
use crate::subscribing::held_row;
use ps_config::{Config, read_config};
use std::alloc::Global;
use std::io;

fn main(rt: HostRuntime) -> io::Result<()> {
    match run(rt.alloc()) {
        Ok(text) => print!(rt; "{text}"),
        Err(fault) => println!(rt; "{fault}"),
    }
}

/// The row that came over, as text.
fn run(alloc: Global) -> Result<String, DeviceFault> {
    let config = configured(alloc)?;
    let [meta] = config.dataset.as_slice() else {
        return Err(DeviceFault::Unlike);
    };
    let row = readings(meta)?;
    let mut datagram = datagram_of_a_turn(alloc, &config, row)?;
    held_row(alloc, &config, &mut datagram)
}

/// The configuration. What groups ask of one is what `read_config` promises of those that it accepts.
fn configured(alloc: Global) -> Result<Config, DeviceFault>
    ensures { IfOk result IsGood }
{
    Ok(read_config(alloc, CONFIGURATION.as_bytes())?)
}
