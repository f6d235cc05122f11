//! What of a reader's messages isn't taken, and why.
use crate::cause::Cause;
use crate::faults::{part_cause, put_field};
use crate::heard::Heard;
use crate::text::{Piece, fill, put_counts};
use dataset_meta::Meta;
use dataset_reader::{Passed, Reader};
use example_parts::Fault;
use frame_codec::FieldFault;
use ps_config::{NumberingWord, ReaderPart};
use pubsub_model::Why;
use reader_group::Notice;

/// How long no other line is put after one that a message can't be read, in milliseconds.
const SECOND: u64 = 1000;

/// What a look at a reader finds: the reader, what is noted of it, and its part of the configuration; and the last datagram.
#[derive(Clone, Copy)]
pub struct Glance<'a> {
    pub part: &'a ReaderPart,
    pub meta: &'a Meta,
    pub reader: &'a Reader,
    pub notice: &'a Notice,
    pub heard: &'a Heard,
}

/// How many messages for a reader weren't taken, and why the last one wasn't.
#[derive(Clone, Copy)]
pub struct Untaken {
    bad: u64,
    passed: Passed,
    stored: u64,
    seen: Option<u64>,
    last: Option<Last>,
    /// Whether a row was stored since.
    is_before: bool,
    /// The last for which a line was put, and the next moment at which one is put for another.
    told: Option<Last>,
    next: u64,
    /// What comes while it waits for its first row since it was cut.
    heard: Option<&'static str>,
}

/// The last message that wasn't taken.
#[derive(Clone, Copy)]
struct Last {
    /// What the reader does with it.
    verb: &'static str,
    cause: Cause,
    field: Option<FieldFault>,
}

impl Last {
    fn passed(cause: Cause) -> Last {
        Last {
            verb: "passes over",
            cause,
            field: None,
        }
    }

    /// Whether it is told like the other: numbers that change with each message aren't looked at.
    fn is_like(&self, other: &Last) -> bool {
        self.cause.word == other.cause.word && self.field == other.field
    }

    fn put(&self, out: &mut Vec<u8>, meta: &Meta) -> Result<(), Fault> {
        fill(out, " # ", &[Piece::Word(self.verb)])?;
        self.put_cause(out, meta)
    }

    fn put_cause(&self, out: &mut Vec<u8>, meta: &Meta) -> Result<(), Fault> {
        self.cause.put(out)?;
        match &self.field {
            Some(field) => put_field(out, field, meta),
            None => Ok(()),
        }
    }
}

impl Untaken {
    pub const NOTHING: Untaken = Untaken {
        bad: 0,
        passed: Passed {
            wrong_major: 0,
            unnumbered: 0,
            older: 0,
        },
        stored: 0,
        seen: None,
        last: None,
        is_before: false,
        told: None,
        next: 0,
        heard: None,
    };

    /// A look after a datagram or a wait. The answer is whether there is a line to put: a message wasn't taken for another cause than
    /// the last one that was told. Where messages can't be read there is one a second at most, since with another key each has another
    /// cause.
    pub fn look(&mut self, now: u64, glance: &Glance<'_>) -> bool {
        let last = self.last_since(glance);
        if glance.notice.stored != self.stored {
            self.is_before = true;
        }
        let is_bad = glance.notice.bad != self.bad;
        self.bad = glance.notice.bad;
        self.passed = glance.reader.passed();
        self.stored = glance.notice.stored;
        match last {
            Some(last) => self.note(now, last, is_bad),
            None => false,
        }
    }

    fn note(&mut self, now: u64, last: Last, is_bad: bool) -> bool {
        self.last = Some(last);
        self.is_before = false;
        let is_told = match &self.told {
            Some(told) => told.is_like(&last),
            None => false,
        };
        if is_told || now < self.next {
            return false;
        }
        self.told = Some(last);
        self.next = if is_bad {
            now.saturating_add(SECOND)
        } else {
            now
        };
        true
    }

    fn last_since(&self, glance: &Glance<'_>) -> Option<Last> {
        let (notice, passed) = (glance.notice, glance.reader.passed());
        if notice.bad != self.bad {
            let fields = glance.meta.fields().len() as u64;
            return Some(Last {
                verb: "can't read",
                cause: part_cause(notice.fault?, glance.heard, glance.part, fields),
                field: notice.field,
            });
        }
        if passed.wrong_major != self.passed.wrong_major {
            let (came, wanted) = (u64::from(notice.major?), u64::from(glance.meta.major()));
            let cause = Cause::told("OtherMajor", ", came #, wanted #", came, wanted);
            return Some(Last::passed(cause));
        }
        if passed.unnumbered != self.passed.unnumbered {
            return Some(Last::passed(unnumbered(glance.part.numbering)));
        }
        if passed.older != self.passed.older {
            return Some(Last::passed(Cause::named("Older")));
        }
        None
    }

    /// A look at what comes while the reader waits for its first row since it was cut. The answer is whether there is a line to put:
    /// one for each such wait.
    pub fn listen(&mut self, glance: &Glance<'_>) -> bool {
        let seen = self.seen;
        self.seen = glance.notice.seen;
        if glance.reader.row().is_some() || glance.reader.why() == Why::Gap {
            self.heard = None;
            return false;
        }
        if self.heard.is_some() {
            return false;
        }
        if self.seen.is_some() && seen != self.seen {
            self.heard = Some(" hears NoKeyFrame, a delta frame or a keep-alive");
        } else if glance.heard.is_chunk && glance.heard.writer == Some(glance.part.writer) {
            self.heard = Some(" hears Chunk, a part of a message");
        }
        self.heard.is_some()
    }

    /// Why the last message that wasn't taken wasn't, if there was one.
    pub fn put(&self, out: &mut Vec<u8>, meta: &Meta) -> Result<(), Fault> {
        match &self.last {
            Some(last) => last.put(out, meta),
            None => Ok(()),
        }
    }

    /// What comes while it waits.
    pub fn put_heard(&self, out: &mut Vec<u8>) -> Result<(), Fault> {
        match self.heard {
            Some(heard) => fill(out, heard, &[]),
            None => Ok(()),
        }
    }

    /// The line of the live view on what isn't taken, if there is something to say.
    pub fn put_line(&self, out: &mut Vec<u8>, meta: &Meta) -> Result<(), Fault> {
        self.put_heard(out)?;
        let Some(last) = &self.last else {
            return Ok(());
        };
        if self.is_before {
            fill(out, " before:", &[])?;
        }
        last.put(out, meta)
    }

    /// Whether there is something to say in the live view.
    pub fn is_some(&self) -> bool {
        self.last.is_some() || self.heard.is_some()
    }

    /// All counts, and the last fault.
    pub fn put_sums(&self, out: &mut Vec<u8>, notice: &Notice, meta: &Meta) -> Result<(), Fault> {
        fill(
            out,
            " stored #, lost #, unreadable #, passed over",
            &[
                Piece::Number(notice.stored),
                Piece::Number(notice.lost),
                Piece::Number(notice.bad),
            ],
        )?;
        put_counts(
            out,
            &[
                ("OtherMajor", self.passed.wrong_major),
                ("Unnumbered", self.passed.unnumbered),
                ("Older", self.passed.older),
            ],
        )?;
        match &self.last {
            Some(last) => {
                fill(out, ", last ", &[])?;
                last.put_cause(out, meta)
            }
            None => Ok(()),
        }
    }
}

/// Why a message is passed over that has no place in the run of messages.
fn unnumbered(numbering: NumberingWord) -> Cause {
    let pattern = match numbering {
        NumberingWord::Message => ", came without a number",
        NumberingWord::None => ", came a delta frame, wanted key frames",
    };
    Cause::told("Unnumbered", pattern, 0, 0)
}
