//! Cases of `dataset_writer`.
ghost use Rattle.row_words.specs.Patches.{IsPatchOf};
ghost use Rattle.dataset_writer.specs.Standing.{HoldsRowOf};
ghost use Rattle.dataset_writer.specs.Props.{HoldsRowOf-prop};
ghost use Rattle.frame_codec.specs.Words.{IsFrameOf};

use crate::calls::{ServedCall, WriterCall};
use crate::fields::{Case, number_field};
use crate::frames::kind_of;
use crate::readers::number_in;
use case_lines::{Answer, CaseLine, LineFault, Told, said};
use dataset_meta::Meta;
use dataset_writer::{Turn, Writer, WriterSettings};
use frame_codec::{Frame, FrameKind};
use row_words::Patch;
use std::alloc::Global;

/// Turns that a writer has room for.
const TURNS: u32 = 70_000;

/// The writer of the last line `writer`, and the data set of the last line `data` where no writer has it yet.
#[derive(Drop)]
pub struct WriterRows {
    next: Option<Case>,
    served: Option<Served>,
}

impl WriterRows {
    pub fn new() -> WriterRows {
        WriterRows {
            next: None,
            served: None,
        }
    }

    /// The calls that give a data set and a writer.
    pub fn given(&mut self, alloc: Global, call: WriterCall, line: &mut CaseLine) -> Answer {
        match call {
            WriterCall::Data => self.data(alloc, line),
            WriterCall::Writer => self.writer(alloc, line),
            WriterCall::Refresh => self.refresh(),
        }
    }

    /// The calls of the writer.
    pub fn served(&mut self, alloc: Global, call: ServedCall, line: &mut CaseLine) -> Answer {
        match &mut self.served {
            Some(served) => served.answer(alloc, call, line),
            None => Err(LineFault::Missing),
        }
    }

    /// `data NAME ..`: the data set of the next `writer` or `refresh`, with a UInt32 field for each name
    fn data(&mut self, alloc: Global, line: &mut CaseLine) -> Answer {
        let mut fields = Vec::new(alloc);
        for name in line.words() {
            fields.push(number_field(name)?)?;
        }
        self.next = Some(Case::opening(fields, 7, 3)?);
        Ok(None)
    }

    /// `writer FIRST KEY_FRAME_COUNT KEEP_ALIVE VERSIONS`: a fresh writer whose first number is FIRST
    fn writer(&mut self, alloc: Global, line: &mut CaseLine) -> Answer {
        let settings = WriterSettings {
            first_number: line.u16(),
            key_frame_count: line.u32(),
            keep_alive: line.u64(),
            versions: line.word() == "yes",
        };
        if settings.key_frame_count == 0 {
            return Err(LineFault::Condition);
        }
        let case = self.next_case()?;
        let Ok(writer) = Writer::new(alloc, settings, u64::from(TURNS), TURNS) else {
            return Err(LineFault::Memory);
        };
        self.served = Some(Served { case, writer });
        Ok(None)
    }

    /// `refresh`: the writer is fresh, and its data set from now on is that of a line `data` since
    fn refresh(&mut self) -> Answer {
        let Some(served) = self.served.take() else {
            return Err(LineFault::Missing);
        };
        let Served { case, mut writer } = served;
        writer.refresh();
        let case = match self.next.take() {
            Some(grown) => grown,
            None => case,
        };
        self.served = Some(Served { case, writer });
        Ok(None)
    }

    /// The data set that no writer has yet, or that of the writer before.
    fn next_case(&mut self) -> Result<Case, LineFault> {
        if let Some(case) = self.next.take() {
            return Ok(case);
        }
        match self.served.take() {
            Some(served) => Ok(served.case),
            None => Err(LineFault::Missing),
        }
    }
}

/// A writer, with its data set and the row of the last turn.
#[derive(Drop)]
struct Served {
    case: Case,
    writer: Writer,
    ghost holds: { HoldsRowOf case.meta writer } by { HoldsRowOf-prop case.meta writer },
}

/// When a turn is, with which version and which values, and whether it is the closing one.
#[derive(Drop)]
struct Asked {
    now: u64,
    version: u64,
    values: Vec<u32>,
    closing: bool,
}

impl Asked {
    /// `NOW VERSION VALUE ..`
    fn read(alloc: Global, line: &mut CaseLine, closing: bool) -> Asked {
        Asked {
            now: line.u64(),
            version: line.u64(),
            values: line.numbers(alloc),
            closing,
        }
    }
}

impl Served {
    fn answer(&mut self, alloc: Global, call: ServedCall, line: &mut CaseLine) -> Answer {
        match call {
            ServedCall::Turn => self.turn(alloc, &Asked::read(alloc, line, false)),
            ServedCall::Closing => self.turn(alloc, &Asked::read(alloc, line, true)),
            ServedCall::Quiet => self.quiet(alloc, line),
            ServedCall::Log => self.log(alloc),
        }
    }

    /// `turn NOW VERSION VALUE ..`, or `closing` for `turn`: the frame's kind, its number, for a delta frame INDEX=VALUE of each
    /// change, and the version where the frame carries it; or `quiet`
    fn turn(&mut self, alloc: Global, asked: &Asked) -> Answer {
        if self.writer.left() == 0 {
            return Err(LineFault::Condition);
        }
        self.case.set_from(0, &asked.values)?;
        let Case { meta, row } = &self.case;
        match self
            .writer
            .turn(meta, asked.now, row, asked.version, asked.closing)
        {
            Turn::Send(frame) => frame_text(alloc, meta, &frame),
            Turn::Quiet => said(alloc, "quiet"),
        }
    }

    /// `quiet TURNS NOW VERSION VALUE ..`: whether so many turns, each the same, were all quiet
    fn quiet(&mut self, alloc: Global, line: &mut CaseLine) -> Answer {
        let turns = line.u32();
        let asked = Asked::read(alloc, line, false);
        for _ in 0..turns {
            match self.turn(alloc, &asked)? {
                Some(text) if text.as_str() == "quiet" => {}
                _ => return said(alloc, "no"),
            }
        }
        said(alloc, "yes")
    }

    /// `log`: PLACE:VERSION of each data frame
    fn log(&self, alloc: Global) -> Answer {
        let mut told = Told::new(alloc);
        for (place, version) in self.writer.log() {
            told.apart(" ");
            told.fill("#:#", &[*place, *version]);
        }
        told.answer()
    }
}

/// Kind, number, changes and version of a frame.
fn frame_text(alloc: Global, meta: &Meta, frame: &Frame) -> Answer
    requires { IsFrameOf meta.now frame.now }
{
    let mut told = Told::new(alloc);
    told.say(kind_of(&frame.kind));
    told.named(" ", frame.number);
    if let FrameKind::Change(patch) = &frame.kind {
        tell_changes(&mut told, meta, patch);
    }
    if let (Some(major), Some(minor)) = (frame.major, frame.minor) {
        told.fill(" version #.#", &[u64::from(major), u64::from(minor)]);
    }
    told.answer()
}

/// INDEX=VALUE of each field that is marked.
fn tell_changes(told: &mut Told, meta: &Meta, patch: &Patch)
    requires { IsPatchOf meta.now patch.now }
{
    for index in 0..meta.fields().len() {
        if patch.mask >> (index % 64) & 1 == 1 {
            told.fill(" #=", &[index as u64]);
            told.named("", number_in(&patch.row.field(meta, index as u8)));
        }
    }
}
