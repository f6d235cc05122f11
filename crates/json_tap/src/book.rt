//! The lines so far.
ghost use Rattle.std.specs.Prelude.{◌≡◌, ◌<◌, [], length, IfOk, OnOk, vec_len, vec_capacity};
ghost use Rattle.json_tap.specs.Keeping.{line_for, Keeps, KeepsIf};
ghost use Rattle.json_tap.specs.Reading.{IsReadBack};

use crate::line::JsonLine;
use crate::message::line_for;
use ps_config::Config;
use std::alloc::Global;
use ua_base::{NoMemory, Sent};

/// The lines, and how many datagrams gave none. The count stands still at 2^64 - 1.
#[derive(Drop)]
pub struct Book {
    pub lines: Vec<JsonLine>,
    pub skipped: u64,
}

impl Book {
    /// The line of a datagram after those so far, where it gives one, and memory to keep it.
    pub fn line_for(
        &mut self,
        alloc: Global,
        config: &Config,
        datagram: &[u8],
    ) -> Result<Option<JsonLine>, NoMemory>
        ensures line { IfOk result (λ line.
            line ≡ line_for config.now (length self.old.lines.items) datagram.now) }
        ensures read { OnOk result
            (IsReadBack config.now (length self.old.lines.items) datagram.now) }
        ensures room { OnOk result (vec_len self.new.lines < vec_capacity self.new.lines) }
        ensures lines { self.new.lines.items ≡ self.old.lines.items }
        ensures skipped { self.new.skipped ≡ self.old.skipped }
    {
        let line = line_for(alloc, config, self.lines.len() as u64, datagram)?;
        self.lines.reserve(1)?;
        Ok(line)
    }

    /// Keeps the line of a datagram that was sent, or counts it where it has none.
    pub fn settle(&mut self, sent: Sent, line: Option<JsonLine>)
        requires { vec_len self.old.lines < vec_capacity self.old.lines }
        ensures { KeepsIf sent line
            self.old.lines.items self.new.lines.items self.old.skipped self.new.skipped }
    {
        match sent {
            Sent::Done => self.keep(line),
            Sent::Failed | Sent::Memory => {}
        }
    }

    fn keep(&mut self, line: Option<JsonLine>)
        requires { vec_len self.old.lines < vec_capacity self.old.lines }
        ensures { Keeps line
            self.old.lines.items self.new.lines.items self.old.skipped self.new.skipped }
    {
        match line {
            Some(line) => self.lines.push_reserved(line),
            None => self.skipped = self.skipped.saturating_add(1),
        }
    }

    pub fn clear(&mut self)
        ensures lines { self.new.lines.items ≡ [] }
        ensures skipped { self.new.skipped ≡ 0 }
    {
        self.lines.clear();
        self.skipped = 0;
    }
}
