//! A read group, and what was told of its readers.
ghost use Rattle.std.specs.Prelude.{◌≡◌, ◌<◌, IfOk, length};
ghost use Rattle.ps_config.specs.Sound.{IsSound};
ghost use Rattle.reader_group.specs.Members.{seat_at};
ghost use Rattle.reader_group.specs.Settings.{group_at, seat_in, setting_of};
ghost use Rattle.writer_group.specs.Standing.{IsGood};
ghost use Rattle.example_subscriber.specs.Listeners.{IsListener, readers_of};

use crate::counts::Counts;
use crate::heard::Heard;
use crate::live::{DRAWING, put_drawing};
use crate::news::{Head, Standing, Told};
use crate::refusing::{put_refusal, refusal_cause};
use crate::text::{Piece, fill};
use crate::untaken::Glance;
use dataset_meta::Meta;
use example_parts::Fault;
use group_keys::Ring;
use ps_config::{Config, MOST_READERS, ReadGroupPart, ReaderPart};
use ps_report::put_feed;
use reader_group::{ReaderGroup, Refusal, Taken};
use std::alloc::Global;
use std::io;
use udp_edge::write_whole;

/// The first read group of a configuration, what was told of its readers, and what became of datagrams. All readers are enabled.
#[derive(Drop)]
pub struct Listener<'c> {
    config: &'c Config,
    group: ReaderGroup,
    on: Vec<bool>,
    told: Vec<Told>,
    counts: Counts,
    /// The last datagram, until it was looked at; and the last that was refused.
    heard: Heard,
    refused: Heard,
    /// Why the last datagram that was refused was.
    cause: &'static str,
    /// Whose message came first of those that no reader asks for.
    other: Option<u16>,
    is_refusal_untold: bool,
    is_other_untold: bool,
    view: View,
    /// Lines before they are printed, and as they are drawn.
    lines: Vec<u8>,
    drawing: Vec<u8>,
}

/// How readers are shown: a line for each thing that is new, or the same lines again and again.
#[derive(Clone, Copy)]
pub enum View {
    News,
    /// The next moment at which lines are written, and how many stand there.
    Live { next: u64, drawn: u64 },
}

impl<'c> Listener<'c> {
    pub fn new(alloc: Global, config: &'c Config, view: View) -> Result<Listener<'c>, Fault>
        requires { IsGood config.now }
        ensures { IfOk result IsListener }
    {
        let [part] = config.readgroup.as_slice() else {
            return Err(Fault::Unlike);
        };
        let count = part.reader.as_slice().len();
        Ok(Listener {
            config,
            group: ReaderGroup::new(alloc, config, 0)?,
            on: vec![in alloc; true; count]?,
            told: vec![in alloc; Told::NOTHING; count]?,
            counts: Counts::new(alloc),
            heard: Heard::NOTHING,
            refused: Heard::NOTHING,
            cause: "",
            other: None,
            is_refusal_untold: false,
            is_other_untold: false,
            view,
            lines: Vec::new(alloc),
            drawing: Vec::new(alloc),
        })
    }

    /// Time goes on.
    pub fn expire(&mut self, now: u64)
        requires { IsListener self.old }
        ensures { IsListener self.new }
    {
        self.group.expire(now);
    }

    /// A datagram comes. What is answered isn't counted yet.
    pub fn give(&mut self, now: u64, bytes: &mut [u8]) -> Result<Taken, Refusal>
        requires { IsListener self.old }
        ensures { IsListener self.new }
    {
        self.heard = Heard::of(bytes);
        self.group.datagram(self.config, now, &self.on, bytes)
    }

    /// Counts what a datagram was answered last.
    pub fn count(&mut self, answer: &Result<Taken, Refusal>) -> Result<(), Fault>
        requires { IsListener self.old }
        ensures { IsListener self.new }
    {
        match answer {
            Ok(taken) => {
                self.counts.take(taken);
                if taken.matched == 0 && self.other.is_none() {
                    self.other = self.heard.writer;
                    self.is_other_untold = self.other.is_some();
                }
                Ok(())
            }
            Err(refusal) => self.count_refusal(refusal),
        }
    }

    fn count_refusal(&mut self, refusal: &Refusal) -> Result<(), Fault>
        requires { IsListener self.old }
        ensures { IsListener self.new }
    {
        let security = first_group(self.config).security;
        let word = refusal_cause(refusal, &self.heard, security).word;
        self.refused = self.heard;
        self.heard = Heard::NOTHING;
        if self.cause != word {
            self.cause = word;
            self.is_refusal_untold = true;
        }
        self.counts.refuse(word)
    }

    /// Goes on with these keys.
    pub fn renew(&mut self, ring: Ring)
        requires { IsListener self.old }
        ensures { IsListener self.new }
    {
        self.group.renew(ring);
    }

    /// Says that it goes on with other keys.
    pub fn tell_keys<R: Print>(&self, rt: &R, now: u64) -> Result<(), Fault> {
        match self.view {
            View::News => println!(rt; "{now}: goes on with new keys").map_err(unwritten),
            View::Live { .. } => Ok(()),
        }
    }

    /// A datagram was too long, or a receive failed.
    pub fn fail(&mut self)
        requires { IsListener self.old }
        ensures { IsListener self.new }
    {
        self.counts.fail();
    }

    /// Shows the readers.
    pub fn show<R: Print>(&mut self, rt: &R, now: u64) -> Result<(), Fault>
        requires { IsListener self.old }
        ensures { IsListener self.new }
    {
        self.lines.clear();
        match self.view {
            View::News => {
                self.put_new_refusal(now)?;
                self.put_new_other(now)?;
                self.look_all(now, false)?;
                print_all(rt, &self.lines)
            }
            View::Live { next, .. } if now < next => self.look_all(now, false),
            View::Live { drawn, .. } => {
                self.put_view(now)?;
                self.draw(rt, now, drawn)
            }
        }
    }

    /// A line where a datagram was refused for another cause than the last before it.
    fn put_new_refusal(&mut self, now: u64) -> Result<(), Fault>
        requires { IsListener self.old }
        ensures { IsListener self.new }
    {
        if !self.is_refusal_untold {
            return Ok(());
        }
        self.is_refusal_untold = false;
        self.put_last("#: refuses ", now)
    }

    /// A line where the first message came that no reader asks for.
    fn put_new_other(&mut self, now: u64) -> Result<(), Fault>
        requires { IsListener self.old }
        ensures { IsListener self.new }
    {
        if !self.is_other_untold {
            return Ok(());
        }
        self.is_other_untold = false;
        self.put_other("#: ", now)
    }

    /// Why the last datagram that was refused was, and whose it was, if there was one, after this pattern of the moment.
    fn put_last(&mut self, pattern: &str, now: u64) -> Result<(), Fault>
        requires { IsListener self.old }
        ensures { IsListener self.new }
    {
        let Some(last) = &self.group.refused().last else {
            return Ok(());
        };
        let part = first_group(self.config);
        fill(&mut self.lines, pattern, &[Piece::Number(now)])?;
        put_refusal(&mut self.lines, last, &self.refused, part)?;
        Ok(put_feed(&mut self.lines)?)
    }

    /// Whose message came first that no reader asks for, if there was one.
    fn put_other(&mut self, pattern: &str, now: u64) -> Result<(), Fault>
        requires { IsListener self.old }
        ensures { IsListener self.new }
    {
        let Some(writer) = self.other else {
            return Ok(());
        };
        let writer = u64::from(writer);
        fill(&mut self.lines, pattern, &[Piece::Number(now)])?;
        let pattern = "hears OtherWriter, writer #\n";
        fill(&mut self.lines, pattern, &[Piece::Number(writer)])
    }

    /// All lines of the live view.
    fn put_view(&mut self, now: u64) -> Result<(), Fault>
        requires { IsListener self.old }
        ensures { IsListener self.new }
    {
        self.look_all(now, true)?;
        self.put_counts()?;
        self.put_last(" last refused ", now)?;
        self.put_other(" ", now)
    }

    fn put_counts(&mut self) -> Result<(), Fault>
        requires { IsListener self.old }
        ensures { IsListener self.new }
    {
        let lost = self.lost();
        self.counts.put(&mut self.lines, lost)?;
        Ok(put_feed(&mut self.lines)?)
    }

    /// How many messages all readers lost.
    fn lost(&self) -> u64
        requires { IsListener self.now }
    {
        let mut lost = 0u64;
        let count = self.group.count();
        for index in 0..count {
            lost = lost.saturating_add(self.group.notice(index).lost);
        }
        lost
    }

    /// Draws the lines in the place of so many that were drawn.
    fn draw<R: Print>(&mut self, rt: &R, now: u64, drawn: u64) -> Result<(), Fault>
        requires { IsListener self.old }
        ensures { IsListener self.new }
    {
        self.drawing.clear();
        let drawn = put_drawing(&mut self.drawing, &self.lines, drawn)?;
        self.view = View::Live {
            next: now.saturating_add(DRAWING),
            drawn,
        };
        print_all(rt, &self.drawing)
    }

    /// Looks at each reader.
    fn look_all(&mut self, now: u64, draws: bool) -> Result<(), Fault>
        requires { IsListener self.old }
        ensures { IsListener self.new }
    {
        let count = self.told.len().min(MOST_READERS) as u8;
        for index in 0..count {
            self.look(now, index, draws)?;
        }
        self.heard = Heard::NOTHING;
        Ok(())
    }

    /// Puts what is new of a reader, or its lines of the live view where it is drawn.
    fn look(&mut self, now: u64, index: u8, draws: bool) -> Result<(), Fault>
        requires listener { IsListener self.old }
        requires index { index < readers_of self.old }
        ensures listener { IsListener self.new }
        ensures count { readers_of self.new ≡ readers_of self.old }
    {
        let part = part_of(self.config, usize::from(index));
        let glance = Glance {
            part,
            meta: meta_of(self.config, part),
            reader: self.group.reader(index),
            notice: &self.group.notice(index),
            heard: &self.heard,
        };
        let standing = Standing {
            is_ready: self.group.is_ready(index),
            is_late: self.group.is_late(index),
            is_fresh: self.group.is_fresh(index, now, bound_of(part)),
        };
        let told = &mut self.told[usize::from(index)];
        let name = part.name.as_str();
        let head = Head { moment: now, name };
        match self.view {
            View::News => told.put_news(&mut self.lines, &head, &glance, standing.is_fresh),
            View::Live { .. } => told.put_live(&mut self.lines, now, &glance, standing, draws),
        }
    }

    /// Prints what became of each reader's messages, and then of datagrams.
    pub fn tell_counts<R: Print>(&mut self, rt: &R, now: u64) -> Result<(), Fault>
        requires { IsListener self.old }
        ensures { IsListener self.new }
    {
        self.lines.clear();
        self.put_all_sums(now)?;
        self.put_last("#: last refused ", now)?;
        fill(&mut self.lines, "#: ", &[Piece::Number(now)])?;
        self.put_counts()?;
        print_all(rt, &self.lines)
    }

    /// What became of each reader's messages.
    fn put_all_sums(&mut self, now: u64) -> Result<(), Fault>
        requires { IsListener self.old }
        ensures { IsListener self.new }
    {
        let count = self.group.count();
        for index in 0..count {
            self.put_sums(now, index)?;
        }
        Ok(())
    }

    /// What became of a reader's messages.
    fn put_sums(&mut self, now: u64, index: u8) -> Result<(), Fault>
        requires listener { IsListener self.old }
        requires index { index < readers_of self.old }
        ensures listener { IsListener self.new }
        ensures count { readers_of self.new ≡ readers_of self.old }
    {
        let part = part_of(self.config, usize::from(index));
        let name = part.name.as_str();
        Head { moment: now, name }.put(&mut self.lines)?;
        let notice = self.group.notice(index);
        let untaken = &self.told[usize::from(index)].untaken;
        untaken.put_sums(&mut self.lines, &notice, meta_of(self.config, part))?;
        Ok(put_feed(&mut self.lines)?)
    }
}

pub fn unwritten(_: io::Error) -> Fault {
    Fault::Unwritten
}

/// Prints lines, if there are any.
fn print_all<R: Print>(rt: &R, lines: &[u8]) -> Result<(), Fault> {
    if lines.is_empty() || write_whole(&mut io::writer(rt), lines) {
        Ok(())
    } else {
        Err(Fault::Unwritten)
    }
}

/// How old the row of a reader may be where it is used, in milliseconds: as old as its timeout lets a message be.
fn bound_of(part: &ReaderPart) -> u64 {
    if part.timeout == 0 {
        u64::MAX
    } else {
        part.timeout
    }
}

/// The first read group.
fn first_group(config: &Config) -> &ReadGroupPart
    requires { 0 < length config.now.readgroup }
    ensures { result.now ≡ group_at config.now 0 }
{
    &config.readgroup.as_slice()[0]
}

/// The reader with this index in the first read group.
fn part_of(config: &Config, index: usize) -> &ReaderPart
    requires sound { IsSound config.now }
    requires group { 0 < length config.now.readgroup }
    requires index { index < length (group_at config.now 0).reader }
    ensures seat { seat_at (setting_of config.now 0).seats index ≡ seat_in config.now result.now }
    ensures set { result.now.dataset < length config.now.dataset }
{
    let group = first_group(config);
    &group.reader.as_slice()[index]
}

/// The meta of the reader's data set.
fn meta_of<'c>(config: &'c Config, part: &ReaderPart) -> &'c Meta
    requires { part.now.dataset < length config.now.dataset }
    ensures { result.now ≡ (seat_in config.now part.now).meta }
{
    &config.dataset.as_slice()[usize::from(part.dataset)]
}
