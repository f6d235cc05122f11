//! What became of a reader since it was told last.
ghost use Rattle.std.specs.Prelude.{◌≡◌};
ghost use Rattle.row_words.specs.Belonging.{Belongs};
ghost use Rattle.dataset_reader.specs.Reader.{IsReaderOf};

use crate::live::Mark;
use crate::text::{Piece, fill};
use crate::untaken::{Glance, Untaken};
use dataset_meta::Meta;
use dataset_reader::Reader;
use example_parts::Fault;
use ps_report::{put, put_feed, put_named, put_row, put_waits};
use pubsub_model::Why;
use row_words::Row;

/// Whether a reader is ready (it held a row, and no timeout has come since), whether it is late (its timeout came, and no message
/// since), and whether its row may be used (it holds one that was confirmed a short time ago).
#[derive(Clone, Copy)]
pub struct Standing {
    pub is_ready: bool,
    pub is_late: bool,
    pub is_fresh: bool,
}

/// What was told of a reader last: what it holds or why it waits, since when it waits, and whether what hangs on its values is in its
/// safe state.
#[derive(Clone, Copy)]
pub struct Told {
    held: Held,
    since: u64,
    is_safe: bool,
    /// What wasn't taken.
    pub untaken: Untaken,
    /// For the live view.
    pub mark: Mark,
}

#[derive(Clone, Copy)]
enum Held {
    Row(Row),
    Waits(Why),
    Untold,
}

/// Whose lines these are, and when.
#[derive(Clone, Copy)]
pub struct Head<'a> {
    pub moment: u64,
    pub name: &'a str,
}

impl Head<'_> {
    pub fn put(&self, out: &mut Vec<u8>) -> Result<(), Fault> {
        let (moment, name) = (Piece::Number(self.moment), Piece::Word(self.name));
        fill(out, "#: #", &[moment, name])
    }
}

impl Told {
    /// Nothing was told, and all is safe.
    pub const NOTHING: Told = Told {
        held: Held::Untold,
        since: 0,
        is_safe: true,
        untaken: Untaken::NOTHING,
        mark: Mark::NOTHING,
    };

    fn is_row(&self, row: &Row) -> bool {
        match &self.held {
            Held::Row(last) => last == row,
            _ => false,
        }
    }

    fn is_wait(&self, why: Why) -> bool {
        match &self.held {
            Held::Waits(last) => *last == why,
            _ => false,
        }
    }

    fn waits(&self) -> bool {
        matches!(self.held, Held::Waits(_))
    }

    /// Puts a line for each thing that is new: why a message wasn't taken; that the reader waits, and why; that it recovered, and after
    /// how long; another row; the way of what hangs on it to its safe state or back; and what comes while it waits.
    pub fn put_news(
        &mut self,
        out: &mut Vec<u8>,
        head: &Head<'_>,
        glance: &Glance<'_>,
        is_fresh: bool,
    ) -> Result<(), Fault>
        requires { IsReaderOf glance.now.meta.now glance.now.reader.now }
    {
        let (meta, reader) = (glance.meta, glance.reader);
        if self.untaken.look(head.moment, glance) {
            head.put(out)?;
            self.untaken.put(out, meta)?;
            put_feed(out)?;
        }
        match reader.row() {
            None => self.put_wait(out, head, reader)?,
            Some(row) => self.put_hold(out, head, meta, row)?,
        }
        self.put_safety(out, head, is_fresh)?;
        if self.untaken.listen(glance) {
            head.put(out)?;
            self.untaken.put_heard(out)?;
            put_feed(out)?;
        }
        Ok(())
    }

    fn put_wait(
        &mut self,
        out: &mut Vec<u8>,
        head: &Head<'_>,
        reader: &Reader,
    ) -> Result<(), Fault> {
        let why = reader.why();
        if self.is_wait(why) {
            return Ok(());
        }
        if !self.waits() {
            self.since = head.moment;
        }
        self.held = Held::Waits(why);
        head.put(out)?;
        put_waits(out, why)?;
        put_named(out, b", breaks ", reader.breaks())?;
        put_feed(out)?;
        Ok(())
    }

    fn put_hold(
        &mut self,
        out: &mut Vec<u8>,
        head: &Head<'_>,
        meta: &Meta,
        row: &Row,
    ) -> Result<(), Fault>
        requires { Belongs meta.now row.now.words }
    {
        if self.is_row(row) {
            return Ok(());
        }
        if self.waits() {
            head.put(out)?;
            put_named(
                out,
                b" recovers after ms ",
                head.moment.saturating_sub(self.since),
            )?;
            put_feed(out)?;
        }
        self.held = Held::Row(*row);
        head.put(out)?;
        put(out, b" holds")?;
        put_row(out, meta, row)?;
        put_feed(out)?;
        Ok(())
    }

    /// Puts the reader's lines of the live view, where they are drawn.
    pub fn put_live(
        &mut self,
        out: &mut Vec<u8>,
        now: u64,
        glance: &Glance<'_>,
        standing: Standing,
        draws: bool,
    ) -> Result<(), Fault>
        requires { IsReaderOf glance.now.meta.now glance.now.reader.now }
    {
        self.untaken.look(now, glance);
        self.untaken.listen(glance);
        self.mark.note(now, glance);
        if !draws {
            return Ok(());
        }
        self.mark
            .put_lines(out, now, glance, standing, &self.untaken)
    }

    /// What hangs on the values of a reader runs while its row is fresh: one is held that was confirmed a short time ago. A timeout alone
    /// doesn't tell that, since messages after one that is lost begin it anew.
    fn put_safety(
        &mut self,
        out: &mut Vec<u8>,
        head: &Head<'_>,
        is_fresh: bool,
    ) -> Result<(), Fault> {
        if self.is_safe != is_fresh {
            return Ok(());
        }
        self.is_safe = !is_fresh;
        head.put(out)?;
        put(out, if is_fresh { b" runs" } else { b" is safe" })?;
        put_feed(out)?;
        Ok(())
    }
}
