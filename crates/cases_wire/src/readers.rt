//! Cases of `dataset_reader`. The data set has one UInt32 field, major version 1, without quality.
ghost use Rattle.std.specs.Prelude.{◌≡◌, ◌<◌, length};
ghost use Rattle.row_words.specs.Belonging.{Belongs};
ghost use Rattle.frame_codec.specs.Words.{IsFrameOf, IsKindOf};
ghost use Rattle.dataset_reader.specs.Reader.{IsReaderOf};
ghost use Rattle.dataset_reader.specs.Props.{IsReaderOf-prop};

use crate::calls::HeardCall;
use crate::fields::{Case, Put, number_field, patch_of};
use case_lines::{Answer, CaseLine, LineFault, Told, refused};
use dataset_reader::{Numbering, Outcome, Reader, Took};
use frame_codec::{Frame, FrameKind, read_frame};
use pubsub_model::Why;
use std::alloc::Global;
use ua_values::Value;

/// The reader of the last line `reader`.
#[derive(Drop)]
pub struct ReaderRows {
    heard: Option<Heard>,
}

impl ReaderRows {
    pub fn new() -> ReaderRows {
        ReaderRows { heard: None }
    }

    /// `reader message` or `reader none`: a reader with this numbering
    pub fn reader(&mut self, alloc: Global, line: &mut CaseLine) -> Answer {
        let numbering = line.named(&NUMBERINGS, Numbering::Message);
        let mut fields = Vec::new(alloc);
        fields.push(number_field("a")?)?;
        let case = Case::opening(fields, 1, 0)?;
        let reader = Reader::new(numbering);
        self.heard = Some(Heard { case, reader });
        Ok(None)
    }

    /// The calls of the reader.
    pub fn heard(&mut self, alloc: Global, call: HeardCall, line: &mut CaseLine) -> Answer {
        match &mut self.heard {
            Some(heard) => heard.answer(alloc, call, line),
            None => Err(LineFault::Missing),
        }
    }
}

static NUMBERINGS: [(&str, Numbering); 2] = [
    ("message", Numbering::Message),
    ("none", Numbering::Unnumbered),
];

static REASONS: [(&str, Why); 6] = [
    ("Start", Why::Start),
    ("Gap", Why::Gap),
    ("Timeout", Why::Timeout),
    ("NewToken", Why::NewToken),
    ("Jump", Why::Jump),
    ("Restarted", Why::Restarted),
];

/// What a frame is, what it carries beside its fields, and its message's stamp.
#[derive(Clone, Copy)]
struct Carried {
    number: Option<u16>,
    value: u32,
    major: Option<u32>,
    minor: Option<u32>,
    stamp: Option<u32>,
}

#[derive(Clone, Copy)]
enum Shape {
    Whole,
    Change,
    Alive,
}

impl Carried {
    /// `NUMBER VALUE`, or `NUMBER` of a keep-alive, and the parts behind them.
    fn read(shape: Shape, line: &mut CaseLine) -> Carried {
        let number = line.number_or_dash();
        let value = match shape {
            Shape::Whole | Shape::Change => line.u32(),
            Shape::Alive => 0,
        };
        let mut carried = Carried {
            number,
            value,
            major: Some(1),
            minor: None,
            stamp: None,
        };
        carried.take(line);
        carried.take(line);
        carried.take(line);
        carried
    }

    /// One of its parts by its name, where one is left.
    fn take(&mut self, line: &mut CaseLine) {
        let Some(name) = line.optional() else {
            return;
        };
        let number = line.number_or_dash();
        match name {
            "major" => self.major = number,
            "minor" => self.minor = number,
            "stamp" => self.stamp = number,
            _ => line.fail(LineFault::Missing),
        }
    }
}

/// A reader, with its data set.
#[derive(Drop)]
struct Heard {
    case: Case,
    reader: Reader,
    ghost reads: { IsReaderOf case.meta reader } by { IsReaderOf-prop case.meta reader },
}

impl Heard {
    fn answer(&mut self, alloc: Global, call: HeardCall, line: &mut CaseLine) -> Answer {
        match call {
            HeardCall::Whole => self.frame(alloc, Shape::Whole, line),
            HeardCall::Change => self.frame(alloc, Shape::Change, line),
            HeardCall::Alive => self.frame(alloc, Shape::Alive, line),
            HeardCall::Bytes => self.bytes(alloc, &line.bytes(alloc)),
            HeardCall::Cut => self.cut(alloc, line.named(&REASONS, Why::Start)),
            HeardCall::Why => refused(alloc, &self.reader.why()),
            HeardCall::Breaks => self.breaks(alloc),
        }
    }

    /// `whole NUMBER VALUE`, `change NUMBER VALUE` or `alive NUMBER`, where `-` is no number, and `stamp S`, `major M`, `minor M`
    /// may stand behind: major 1 where none stands there, none with `major -`. The outcome; number and value that are held, `-`
    /// where none is; and where the run of numbers broke `; broke EXPECTED GOT`
    fn frame(&mut self, alloc: Global, shape: Shape, line: &mut CaseLine) -> Answer {
        let carried = Carried::read(shape, line);
        let put = Put {
            index: 0,
            value: Value::UInt32(carried.value),
        };
        self.case.set(&put)?;
        let kind = match shape {
            Shape::Whole => FrameKind::Whole(self.case.row),
            Shape::Change => FrameKind::Change(patch_of(&self.case.meta, &put)?),
            Shape::Alive => FrameKind::Alive,
        };
        let frame = Frame {
            number: carried.number,
            kind,
            major: carried.major,
            minor: carried.minor,
        };
        let took = self.reader.frame(&self.case.meta, &frame, carried.stamp);
        self.told(alloc, &took)
    }

    /// `bytes BYTES`: what a frame that is read from these bytes gives, told as by `whole`
    fn bytes(&mut self, alloc: Global, bytes: &[u8]) -> Answer {
        let Ok(frame) = read_frame(&self.case.meta, bytes) else {
            return Err(LineFault::Condition);
        };
        let took = self.reader.frame(&self.case.meta, &frame, None);
        self.told(alloc, &took)
    }

    /// `cut WHY`: the reason, and what is held
    fn cut(&mut self, alloc: Global, why: Why) -> Answer {
        self.reader.cut(why);
        let mut told = Told::new(alloc);
        told.name(&self.reader.why());
        self.tell_held(&mut told);
        told.answer()
    }

    /// `breaks`: how many, and EXPECTED:GOT of the last eight, the oldest first
    fn breaks(&self, alloc: Global) -> Answer {
        let mut told = Told::new(alloc);
        told.show(&self.reader.breaks());
        for broke in self.reader.recent() {
            told.fill(" #:#", &[broke.expected as u64, broke.got as u64]);
        }
        told.answer()
    }

    /// The outcome, what is held, and the break.
    fn told(&self, alloc: Global, took: &Took) -> Answer {
        let mut told = Told::new(alloc);
        tell_outcome(&mut told, took.outcome);
        self.tell_held(&mut told);
        if let Some(broke) = took.broke {
            told.fill("; broke # #", &[broke.expected as u64, broke.got as u64]);
        }
        told.answer()
    }

    /// Number and value of what is held.
    fn tell_held(&self, told: &mut Told) {
        told.say("; ");
        match self.reader.number() {
            Some(number) => told.show(&number),
            None => told.say("-"),
        }
        told.say(" ");
        let meta = &self.case.meta;
        match self.reader.row() {
            Some(row) if !meta.fields().is_empty() => told.named(
                "",
                number_in(&row.field(meta, 0)),
            ),
            _ => told.say("-"),
        }
    }
}

/// The number of a UInt32.
pub fn number_in(value: &Value) -> Option<u32> {
    match value {
        Value::UInt32(number) => Some(*number),
        _ => None,
    }
}

fn tell_outcome(told: &mut Told, outcome: Outcome) {
    match outcome {
        Outcome::Held => told.say("Held"),
        Outcome::Alive => told.say("Alive"),
        Outcome::Older => told.say("Older"),
        Outcome::Waiting(why) => {
            told.say("Waiting ");
            told.name(&why);
        }
        Outcome::WrongMajor { got } => told.named("WrongMajor ", Some(got)),
        Outcome::Unnumbered => told.say("Unnumbered"),
    }
}
