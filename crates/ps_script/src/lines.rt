//! Lines, each judged and read before the next.
ghost use Rattle.std.specs.Prelude.{◌≡◌, ◌≤◌, [], length, IfOk};
ghost use Rattle.ps_config.specs.Sound.{IsSound};
ghost use Rattle.ps_script.specs.Answered.{StepsBy, ReadsBy};
ghost use Rattle.ps_script.specs.Past.{done_by, nothing_done};
ghost use Rattle.ps_script.specs.Given.{HasNames};

use crate::acts::{act_of, add_line};
use crate::fault::ScriptFault;
use crate::faults::MOST_LINES;
use crate::past::{Given, Past};
use crate::refusal::step;
use crate::script::{Act, Line};
use crate::shapes::is_idle_line;
use crate::writes::sound_write;
use ps_config::Config;
use row_words::Patch;
use std::alloc::{AllocError, Global};

/// What the lines so far have done, and what they mean.
#[derive(Drop)]
pub(crate) struct Reading {
    pub(crate) past: Past,
    /// The lines that do something, each with its number, as they are read by the fields that their
    /// data sets have by then.
    pub(crate) lines: Vec<Line>,
}

impl Reading {
    /// No line, with room for those of the bytes.
    pub(crate) fn new(alloc: Global, config: &Config, bytes: &[u8]) -> Result<Reading, AllocError>
        ensures past { IfOk result (λ reading. done_by reading.past ≡ nothing_done config.now) }
        ensures lines { IfOk result (λ reading. reading.lines.items ≡ []) }
    {
        Ok(Reading {
            past: Past::new(alloc, config)?,
            lines: Vec::with_capacity(alloc, line_count(bytes).min(MOST_LINES))?,
        })
    }

    /// Reads the line with this number, unless it has a fault; then the first of its faults is the
    /// answer. Most lines are passed or written at once, and only the others judged fault by fault.
    pub(crate) fn read(
        &mut self,
        alloc: Global,
        given: &Given,
        number: u32,
        line: &[u8],
    ) -> Result<Option<ScriptFault>, AllocError>
        requires names { HasNames given.now }
        requires few { length self.old.past.metas.items ≤ 8 }
        ensures kept { length self.new.past.metas.items ≡ length self.old.past.metas.items }
        ensures steps { StepsBy given.now self.old.past self.new.past line.now result }
        ensures lines { ReadsBy given.now number line.now self.old.lines.items self.new result }
    {
        if is_idle_line(line) {
            return Ok(None);
        }
        let mut patch = Patch::empty();
        let Some(target) = sound_write(&self.past, line, &mut patch) else {
            return self.judge_and_read(alloc, given, number, line);
        };
        self.past.writes += 1;
        self.lines.push(Line {
            at: number,
            act: Act::Write {
                thread: target.thread,
                set: target.set,
                patch,
            },
        })?;
        Ok(None)
    }

    /// Judges the line by one fault after another, and then reads it.
    fn judge_and_read(
        &mut self,
        alloc: Global,
        given: &Given,
        number: u32,
        line: &[u8],
    ) -> Result<Option<ScriptFault>, AllocError>
        requires names { HasNames given.now }
        requires few { length self.old.past.metas.items ≤ 8 }
        ensures kept { length self.new.past.metas.items ≡ length self.old.past.metas.items }
        ensures steps { StepsBy given.now self.old.past self.new.past line.now result }
        ensures lines { ReadsBy given.now number line.now self.old.lines.items self.new result }
    {
        let fault = step(alloc, given, &mut self.past, line)?;
        if fault.is_none() {
            add_line(
                &mut self.lines,
                number,
                act_of(given, &self.past.metas, line),
            )?;
        }
        Ok(fault)
    }
}

fn line_count(bytes: &[u8]) -> usize {
    bytes.iter().filter(|byte| **byte == b'\n').count()
}
