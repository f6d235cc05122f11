//! Configurations.
use ps_config::{ConfigEnd, read_config};
use std::alloc::Global;

/// Reads the configuration `turns` times, and says how the last reading ended: 0 where it is accepted, the number of its
/// fault where it is refused, 255 where memory ran out.
#[unsafe(no_mangle)]
pub extern "C" fn bench_config(alloc: Global, turns: u32, bytes: &[u8]) -> u32 {
    let mut end = 0;
    for _ in 0..turns {
        end = end_of(alloc, bytes);
    }
    end
}

fn end_of(alloc: Global, bytes: &[u8]) -> u32 {
    match read_config(alloc, bytes) {
        Ok(_) => 0,
        Err(ConfigEnd::Refused { code, .. }) => u32::from(code),
        Err(ConfigEnd::Memory) => 255,
    }
}
