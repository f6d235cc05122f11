//! Reports.
use crate::closing::{Sizes, closed_of};
use bench_base::Unmeasured;
use ps_config::read_config;
use ps_report::report;
use std::alloc::Global;

/// Makes a session of the configuration, which has one group and one read group, as it was when it closed: so many versions
/// of each data set, log entries of each writer and looks of each of 64 watch lines. Writes its report `turns` times, and once
/// more into the bytes; answers its length, 0 where nothing is measured.
#[unsafe(no_mangle)]
pub extern "C" fn bench_report(
    alloc: Global,
    turns: u32,
    config: &[u8],
    versions: u32,
    entries: u32,
    looks: u32,
    bytes: &mut [u8],
) -> usize {
    let sizes = Sizes {
        versions,
        entries,
        looks,
    };
    reported(alloc, turns, config, &sizes, bytes).unwrap_or(0)
}

fn reported(
    alloc: Global,
    turns: u32,
    config: &[u8],
    sizes: &Sizes,
    bytes: &mut [u8],
) -> Result<usize, Unmeasured> {
    let Ok(config) = read_config(alloc, config) else {
        return Err(Unmeasured);
    };
    let closed = closed_of(alloc, &config, sizes)?;
    for _ in 0..turns {
        let _ = report(alloc, &config, &closed)?;
    }
    let text = report(alloc, &config, &closed)?;
    if text.len() > bytes.len() {
        return Err(Unmeasured);
    }
    bytes[..text.len()].copy_from_slice(&text);
    Ok(text.len())
}
