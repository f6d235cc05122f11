//! Lines, each appended to what was written before.
ghost use Rattle.std.specs.Prelude.{◌≡◌, ◌++◌, OnOk};
ghost use Rattle.report_laws.specs.Numbers.{IsNumber, LogHasNumbers};
ghost use Rattle.cmd_lanes.specs.Texts.{lane_line, totals_line, writer_line};

use dataset_meta::Name32;
use ps_report::{put, put_count, put_feed, put_log, put_named};
use report_laws::logs_have_numbers;
use ua_base::NoMemory;

#[tactic(auto, unfolding(crate::specs::Texts::lane_line))]
pub fn put_lane(out: &mut Vec<u8>, name: &Name32, sent: u64) -> Result<(), NoMemory>
    ensures line { OnOk result (out.new.items ≡ out.old.items ++ lane_line name.now sent) }
    ensures number { IsNumber sent }
{
    put(out, b"lane ")?;
    put(out, name.as_bytes())?;
    put_named(out, b" sent ", sent)?;
    put_feed(out)
}

/// Place and version of each of the writer's data frames.
#[tactic(auto, unfolding(crate::specs::Texts::writer_line))]
pub fn put_writer(out: &mut Vec<u8>, name: &Name32, log: &[(u64, u64)]) -> Result<(), NoMemory>
    ensures line { OnOk result (out.new.items ≡ out.old.items ++ writer_line name.now log.now) }
    ensures numbers { LogHasNumbers log.now }
{
    logs_have_numbers(log);
    put(out, b"writer ")?;
    put(out, name.as_bytes())?;
    put_count(out, log.len() as u64)?;
    put_log(out, log)?;
    put_feed(out)
}

#[tactic(auto, unfolding(crate::specs::Texts::totals_line))]
pub fn put_totals(out: &mut Vec<u8>, sent: u64, failed: u64) -> Result<(), NoMemory>
    ensures line { OnOk result (out.new.items ≡ out.old.items ++ totals_line sent failed) }
    ensures numbers { IsNumber sent × IsNumber failed }
{
    put_named(out, b"lanes sent ", sent)?;
    put_named(out, b" failed ", failed)?;
    put_feed(out)
}
