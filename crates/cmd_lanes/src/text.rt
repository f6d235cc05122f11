//! The text of what lanes sent.
ghost use Rattle.std.specs.Prelude.{◌≡◌, ◌<◌, ◌≤◌, ◌++◌, ℕ, List, IfOk, OnOk, length};
ghost use Rattle.std.specs.List.{flat_map};
ghost use Rattle.dataset_meta.specs.Metas.{MetaData};
ghost use Rattle.writer_group.specs.Standing.{IsGood, IsGroup, KeepsLogs, writer_count};
ghost use Rattle.writer_group.specs.Turns.{GroupDeed};
ghost use Rattle.session_model.specs.Answers.{counted};
ghost use Rattle.session_model.specs.Deeds.{Deed, group_indexes};
ghost use Rattle.cmd_lanes.specs.Alike.{GroupsHaveNumbers, HaveNumbers, LogsHaveNumbers};
ghost use Rattle.cmd_lanes.specs.Standing.{HaveGroups, IsGroupOf, IsHad, StandAll, all_of, counts_of, log_in, logs_by};
ghost use Rattle.cmd_lanes.specs.Texts.{group_lines, lanes_text, writer_lines};

use crate::put::{put_lane, put_totals, put_writer};
use lane_groups::{Lane, Ran};
use ps_config::{Config, GroupPart};
use ps_report::put_end;
use std::alloc::Global;
use ua_base::NoMemory;
use writer_group::Group;

/// For each group how many datagrams were sent and its writers' lines, then the counts of all, and the end.
#[tactic(auto, unfolding(crate::specs::Texts::lanes_text))]
pub(crate) fn lanes_text(alloc: Global, config: &Config, ran: &Ran) -> Result<Vec<u8>, NoMemory>
    requires good { IsGood config.now }
    requires lanes { HaveGroups config.now ran.now.lanes.items }
    ensures text { (deeds : List Deed) → StandAll config.now deeds ran.now.lanes.items
        → IfOk result (λ text. text.items
        ≡ lanes_text config.now (counts_of ran.now) (logs_by config.now deeds)) }
    ensures numbers { (deeds : List Deed) → StandAll config.now deeds ran.now.lanes.items
        → OnOk result (HaveNumbers config.now (counts_of ran.now) (logs_by config.now deeds)) }
{
    let mut out = Vec::new(alloc);
    put_groups(&mut out, config, ran)?;
    put_totals(&mut out, total(&ran.sent), ran.failed)?;
    put_end(&mut out)?;
    Ok(out)
}

/// The lines of the groups, each followed by those of its writers.
fn put_groups(out: &mut Vec<u8>, config: &Config, ran: &Ran) -> Result<(), NoMemory>
    requires good { IsGood config.now }
    requires lanes { HaveGroups config.now ran.now.lanes.items }
    ensures lines { (deeds : List Deed) → StandAll config.now deeds ran.now.lanes.items
        → OnOk result (out.new.items ≡ out.old.items
        ++ flat_map (group_lines config.now (counts_of ran.now) (logs_by config.now deeds))
        (group_indexes config.now)) }
    ensures numbers { (deeds : List Deed) → StandAll config.now deeds ran.now.lanes.items
        → OnOk result
        (GroupsHaveNumbers config.now (counts_of ran.now) (logs_by config.now deeds)) }
{
    let parts = config.group.as_slice();
    for g in 0..parts.len() {
        let part = &parts[g];
        put_lane(out, &part.name, ran.sent[g])?;
        put_writers(out, part, group_in(&ran.lanes, g as u8))?;
    }
    Ok(())
}

fn put_writers(out: &mut Vec<u8>, part: &GroupPart, group: &Group) -> Result<(), NoMemory>
    requires count { writer_count group.now ≡ length part.now.writer }
    requires few { length part.now.writer ≤ 16 }
    requires logs { KeepsLogs group.now }
    ensures lines { (metas : ℕ → MetaData) (past : List GroupDeed)
        → IsGroup metas part.now past group.now → OnOk result (out.new.items
        ≡ out.old.items ++ writer_lines part.now (log_in part.now past)) }
    ensures numbers { (metas : ℕ → MetaData) (past : List GroupDeed)
        → IsGroup metas part.now past group.now
        → OnOk result (LogsHaveNumbers part.now (log_in part.now past)) }
{
    let writers = part.writer.as_slice();
    for w in 0..writers.len() {
        put_writer(out, &writers[w].name, group.writer(w as u8).log())?;
    }
    Ok(())
}

/// The group with this index, in the lane in which it stands.
fn group_in(lanes: &[Lane], g: u8) -> &Group
    requires { IsHad lanes.now g }
    ensures { IsGroupOf lanes.now g result.now }
{
    for lane in lanes {
        if let Some(group) = lane.group(g) {
            return group;
        }
    }
    unreachable!()
}

/// How many there are of all groups.
fn total(sent: &[u64; 4]) -> u64
    ensures { result ≡ counted (all_of sent.now) }
{
    let mut total = 0u64;
    for count in sent {
        total = total.saturating_add(*count);
    }
    total
}
