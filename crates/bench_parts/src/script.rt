//! Scripts.
ghost use Rattle.ps_config.specs.Sound.{IsSound};

use bench_base::Unmeasured;
use ps_config::{Config, read_config};
use ps_script::{Act, Script, ScriptEnd, read_script};
use std::alloc::Global;

/// Reads the script `turns` times for the configuration, and says how the last reading ended: 0 where it is accepted, the
/// number of its fault where it is refused, 255 where memory ran out or there is no such configuration.
#[unsafe(no_mangle)]
pub extern "C" fn bench_script(alloc: Global, turns: u32, config: &[u8], bytes: &[u8]) -> u32 {
    let Ok(config) = read_config(alloc, config) else {
        return 255;
    };
    let mut end = 0;
    for _ in 0..turns {
        end = end_of(alloc, &config, bytes);
    }
    end
}

fn end_of(alloc: Global, config: &Config, bytes: &[u8]) -> u32
    requires { IsSound config.now }
{
    match read_script(alloc, config, bytes, true) {
        Ok(_) => 0,
        Err(ScriptEnd::Refused { fault, .. }) => u32::from(fault.number()),
        Err(ScriptEnd::Memory) => 255,
    }
}

/// A sum over what the lines of the script write, by which two readers are compared; 0 where it isn't accepted.
#[unsafe(no_mangle)]
pub extern "C" fn script_sum(alloc: Global, config: &[u8], bytes: &[u8]) -> u64 {
    match accepted(alloc, config, bytes) {
        Ok(script) => sum_of(&script),
        Err(Unmeasured) => 0,
    }
}

fn accepted(alloc: Global, config: &[u8], bytes: &[u8]) -> Result<Script, Unmeasured> {
    let Ok(config) = read_config(alloc, config) else {
        return Err(Unmeasured);
    };
    match read_script(alloc, &config, bytes, true) {
        Ok(script) => Ok(script),
        Err(_) => Err(Unmeasured),
    }
}

fn sum_of(script: &Script) -> u64 {
    let mut sum: u64 = 0;
    for line in script.lines.as_slice() {
        sum = sum.wrapping_mul(31).wrapping_add(u64::from(line.at));
        if let Act::Write { patch, .. } = &line.act {
            sum = sum.wrapping_mul(31).wrapping_add(patch.mask);
            for word in &patch.row.words {
                sum = sum.wrapping_add(*word);
            }
        }
    }
    sum
}
