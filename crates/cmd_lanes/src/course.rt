//! The turns of a script, one for each tick.
ghost use Rattle.std.specs.Prelude.{◌≡◌, [], ◌∷◌, List, All, IfOk, None, OnOk};
ghost use Rattle.dataset_meta.specs.Metas.{IsMeta};
ghost use Rattle.ps_config.specs.Sound.{IsSound};
ghost use Rattle.ps_script.specs.declared.script.Line.{Line as LineValue};
ghost use Rattle.ps_script.specs.Sound.{IsScript};
ghost use Rattle.cmd_lanes.specs.Courses.{AreTurnsOf, IsCourse, IsTicked, IsWritten, MayFollow, MayTick, MayWrite};
ghost use Rattle.cmd_lanes.specs.Scripts.{refusal};

use dataset_meta::Meta;
use lane_groups::TurnIn;
use ps_config::Config;
use ps_script::{Act, Script};
use row_words::{Patch, Row};
use std::alloc::Global;
use ua_base::NoMemory;
use writer_group::Sampled;

/// How far a script has come.
#[derive(Drop)]
pub(crate) struct Course {
    /// The moment, in milliseconds.
    now: u64,
    /// The row and the version of each data set.
    rows: Vec<Sampled>,
    turns: Vec<TurnIn>,
}

/// The turns of a script that lanes take: one for each tick, with the rows that the writes before it leave, and the closing one.
pub(crate) fn turns_of(
    alloc: Global,
    config: &Config,
    script: &Script,
) -> Result<Vec<TurnIn>, NoMemory>
    requires sound { IsSound config.now }
    requires script { IsScript config.now script.now }
    requires taken { refusal script.now ≡ None }
    ensures { IfOk result (λ turns. AreTurnsOf config.now script.now turns.items) }
{
    let metas = config.dataset.as_slice();
    let mut course = Course::new(alloc, metas)?;
    for line in script.lines.as_slice() {
        course.follow(alloc, metas, &line.act)?;
    }
    course.tick(alloc, 0, true)?;
    Ok(course.turns)
}

impl Course {
    /// Before the first line.
    fn new(alloc: Global, metas: &[Meta]) -> Result<Course, NoMemory>
        requires { All (λ meta. IsMeta meta.fields) metas.now }
        ensures { IfOk result (IsCourse metas.now []) }
    {
        let opening = Sampled {
            row: Row::opening(),
            version: 0,
        };
        Ok(Course {
            now: 0,
            rows: vec![in alloc; opening; metas.len()]?,
            turns: Vec::new(alloc),
        })
    }

    /// What a line does.
    fn follow(&mut self, alloc: Global, metas: &[Meta], act: &Act) -> Result<(), NoMemory>
        requires may { MayFollow metas.now act.now self.old }
        ensures { OnOk result ((lines : List LineValue) (line : LineValue) → line.act ≡ act.now
            → IsCourse metas.now lines self.old → IsCourse metas.now (line ∷ lines) self.new) }
    {
        match act {
            Act::Write { set, patch, .. } => {
                self.write(metas, usize::from(*set), patch);
                Ok(())
            }
            Act::Tick(ms) => self.tick(alloc, u64::from(*ms), false),
            _ => Ok(()),
        }
    }

    /// A data set has a version more.
    fn write(&mut self, metas: &[Meta], set: usize, patch: &Patch)
        requires may { MayWrite metas.now set patch.now self.old }
        ensures { IsWritten metas.now set patch.now self.old self.new }
    {
        let sampled = &mut self.rows[set];
        patch.lay(&metas[set], &mut sampled.row);
        sampled.version += 1;
    }

    /// So many milliseconds pass, and a turn follows.
    fn tick(&mut self, alloc: Global, ms: u64, closing: bool) -> Result<(), NoMemory>
        requires may { MayTick ms self.old }
        ensures { OnOk result (IsTicked ms closing self.old self.new) }
    {
        self.now += ms;
        let rows = self.rows.as_slice().to_vec(alloc)?;
        self.turns.push(TurnIn {
            now: self.now,
            rows,
            closing,
        })?;
        Ok(())
    }
}
