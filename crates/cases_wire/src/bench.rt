//! The calls by their names, and what is kept from line to line.
use crate::calls::{CALLS, Call, MachineCall, SetCall, WireCall};
use crate::guards::GuardRows;
use crate::joiners::{self, JoinerRows};
use crate::metas::data_set;
use crate::random::{chunk_line, line_of, name_of};
use crate::readers::ReaderRows;
use crate::timers::TimerRows;
use crate::windows::WindowRows;
use crate::writers::WriterRows;
use crate::{frames, headers, metas, numbers, payloads, security, slots, values};
use case_lines::{Answer, Answers, CaseLine, LineFault, Numbers, Tally, named, told};
use std::alloc::Global;

/// What is kept from line to line: the machines that the calls speak of.
#[derive(Drop)]
pub struct Bench {
    alloc: Global,
    timer: TimerRows,
    joiner: JoinerRows,
    window: WindowRows,
    guards: GuardRows,
    writers: WriterRows,
    readers: ReaderRows,
}

impl<R> Answers<R> for Bench {
    fn answer(&mut self, _rt: &R, line: &mut CaseLine<'_>) -> Answer {
        match named(&CALLS, line.word()) {
            Some(Call::Random) => self.random(line),
            Some(Call::RandomChunks) => self.random_chunks(line),
            Some(call) => self.call(call, line),
            None => Err(LineFault::Call),
        }
    }
}

impl Bench {
    pub fn new(alloc: Global) -> Bench {
        Bench {
            alloc,
            timer: TimerRows::new(),
            joiner: JoinerRows::new(),
            window: WindowRows::new(),
            guards: GuardRows::new(),
            writers: WriterRows::new(),
            readers: ReaderRows::new(),
        }
    }

    /// `random SEED COUNT LONGEST CALL ..`: the answers to so many lines, each the words of the call and at most so many
    /// bytes
    fn random(&mut self, line: &mut CaseLine) -> Answer {
        let mut numbers = Numbers::new(line.u64());
        let (count, longest) = (line.u32(), line.u64());
        let words = line.rest();
        let mut tally = Tally::new(self.alloc);
        for _ in 0..count {
            let line = line_of(self.alloc, words, &mut numbers, longest)?;
            self.tell(&mut tally, line.as_str())?;
        }
        told(self.alloc, &tally)
    }

    /// `random_chunks SEED COUNT`: the answers to so many chunks by chance; each whole message is told too
    fn random_chunks(&mut self, line: &mut CaseLine) -> Answer {
        let mut numbers = Numbers::new(line.u64());
        let count = line.u32();
        let mut tally = Tally::new(self.alloc);
        self.joiner.anew()?;
        for index in 0..count {
            let line = chunk_line(self.alloc, index, &mut numbers)?;
            self.tell(&mut tally, line.as_str())?;
            self.tell(&mut tally, "joined")?;
        }
        told(self.alloc, &tally)
    }

    /// Counts the answer to one line.
    fn tell(&mut self, tally: &mut Tally, made: &str) -> Result<(), LineFault> {
        let mut line = CaseLine::new(made);
        let Some(call) = named(&CALLS, line.word()) else {
            return Err(LineFault::Call);
        };
        let answer = self.call(call, &mut line);
        if let Some(answer) = line.checked(answer)? {
            tally.add(self.alloc, name_of(answer.as_str()), answer.as_str())?;
        }
        Ok(())
    }

    /// What the call answers; lines by chance have no lines by chance in them.
    fn call(&mut self, call: Call, line: &mut CaseLine) -> Answer {
        let alloc = self.alloc;
        match call {
            Call::Random | Call::RandomChunks => Err(LineFault::Call),
            Call::Wire(call) => of_wire(alloc, call, line),
            Call::Set(call) => of_data_set(alloc, call, line),
            Call::Machine(call) => self.machine(call, line),
            Call::Keys(call) => self.guards.keyed(alloc, call, line),
            Call::Sender(call) => self.guards.sent(alloc, call, line),
            Call::Guard(call) => self.guards.guarded(alloc, call, line),
            Call::Writer(call) => self.writers.given(alloc, call, line),
            Call::Served(call) => self.writers.served(alloc, call, line),
            Call::Heard(call) => self.readers.heard(alloc, call, line),
            Call::Reader => self.readers.reader(alloc, line),
        }
    }

    /// The calls of the machines that are kept from line to line.
    fn machine(&mut self, call: MachineCall, line: &mut CaseLine) -> Answer {
        let alloc = self.alloc;
        match call {
            MachineCall::Joiner => self.joiner.anew(),
            MachineCall::JoinerClear => self.joiner.clear(),
            MachineCall::Chunk => self.joiner.chunk(alloc, line),
            MachineCall::JoinedIs => self.joiner.is(alloc, line),
            MachineCall::Joined => self.joiner.joined(alloc),
            MachineCall::Window => self.window.anew(),
            MachineCall::NumberSeen => self.window.test(alloc, line),
            MachineCall::NumberTaken => self.window.take(alloc, line),
            MachineCall::Timer => self.timer.limit(line),
            MachineCall::Seen => self.timer.seen(line),
            MachineCall::Clear => self.timer.clear(),
            MachineCall::Due => self.timer.due(alloc, line),
        }
    }
}

/// What a call answers of which nothing is kept.
fn of_wire(alloc: Global, call: WireCall, line: &mut CaseLine) -> Answer {
    match call {
        WireCall::ReadVariant => values::read_variant(alloc, line),
        WireCall::ReadDataValue => values::read_data_value(alloc, line),
        WireCall::Kinds => values::kinds(alloc),
        WireCall::WriteVariant => values::write_variant(alloc, line),
        WireCall::WriteDataValue => values::write_data_value(alloc, line),
        WireCall::Name => metas::name(alloc, line),
        WireCall::Meta => metas::meta(alloc, line),
        WireCall::Text => values::text(alloc, line),
        WireCall::Blob => values::blob(alloc, line),
        WireCall::Fits => values::fits(alloc, line),
        WireCall::ReadFront => frames::read_front(alloc, line),
        WireCall::ReadHeader => headers::read_header(alloc, line),
        WireCall::SpellHeader => headers::spell_header(alloc, line),
        WireCall::Plan => payloads::plan(alloc, line),
        WireCall::Split => payloads::split(alloc, line),
        WireCall::WriteSizes => payloads::write_sizes(alloc, line),
        WireCall::Slots => slots::slots(alloc, line),
        WireCall::Newer => numbers::is_newer(alloc, line),
        WireCall::Block128 => security::block128(alloc, line),
        WireCall::Block256 => security::block256(alloc, line),
        WireCall::Stream128 => security::stream128(alloc, line),
        WireCall::Stream256 => security::stream256(alloc, line),
        WireCall::Hmac => security::hmac(alloc, line),
        WireCall::Ring => security::ring(alloc, line),
        WireCall::ReadChunk => joiners::read_chunk(alloc, line),
        WireCall::WriteChunk => joiners::write_chunk(alloc, line),
    }
}

/// `CALL META ..`: what a call tells of a data set
fn of_data_set(alloc: Global, call: SetCall, line: &mut CaseLine) -> Answer {
    let meta = data_set(alloc, line.word())?;
    match call {
        SetCall::ReadFrame => frames::read_frame(alloc, &meta, line),
        SetCall::RewriteFrame => frames::rewrite_frame(alloc, &meta, line),
        SetCall::RawSize => slots::raw_size(alloc, &meta),
        SetCall::ReadRaw => slots::read_raw(alloc, &meta, line),
        SetCall::ReadRawBehind => slots::read_raw_behind(alloc, &meta, line),
        SetCall::WriteRaw => slots::write_raw(alloc, &meta, line),
    }
}
