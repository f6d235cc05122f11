//! What a reader keeps, and what a frame does to it.
ghost use Rattle.std.specs.Prelude.{◌≡◌, List, option_map, reverse, take, ◌∷◌, if◌then◌else◌, None, IfSome, true, false};
ghost use Rattle.dataset_meta.specs.declared.field.Field.{Field};
ghost use Rattle.dataset_meta.specs.Metas.{MetaData};
ghost use Rattle.row_words.specs.Belonging.{Belongs, row_in};
ghost use Rattle.frame_codec.specs.Words.{IsFrameOf, IsKindOf, frame_in, content_in};
ghost use Rattle.dataset_reader.specs.Kept.{fresh, cut_kept};
ghost use Rattle.dataset_reader.specs.Cases.{frame_case, unnumbered_case, numbered_case, stamped, placed_case, placed_at, has_passed, break_at, noted_if, record_number, record_case, noted, unbroken, is_alive, older};

use crate::held::Held;
use crate::took::{Numbering, Outcome, Took};
use arrayvec::ArrayVec;
use dataset_meta::Meta;
use frame_codec::{Frame, FrameKind};
use pubsub_model::{Break, Why};
use row_words::Row;
use seq_number::newer;

/// How far above the greatest stamp a stamp cuts the reader.
const JUMP: u32 = 16384;

#[derive(Drop)]
pub(crate) struct Progress {
    // the number of the last record
    pub last: Option<u16>,
    pub stamp: Option<u32>,
    // of the message that the row was last made of
    pub number: Option<u16>,
    pub holds: bool,
    // its row is of no meaning where none is held
    pub held: Held,
    pub why: Why,
    pub breaks: u64,
    // the oldest first
    pub recent: ArrayVec<Break, 8>,
}

impl Progress {
    ghost use Rattle.dataset_reader.specs.Progress.{kept_in, IsStateOf};

    pub fn new() -> Progress
        ensures { (fields : List Field) → kept_in fields result ≡ fresh }
    {
        Progress {
            last: None,
            stamp: None,
            number: None,
            holds: false,
            held: Held::new(),
            why: Why::Start,
            breaks: 0,
            recent: ArrayVec::new(),
        }
    }

    /// What a frame does to a reader with this numbering.
    pub fn take(
        &mut self,
        numbering: Numbering,
        meta: &Meta,
        frame: &Frame,
        stamp: Option<u32>,
    ) -> Took
        requires frame { IsFrameOf meta.now frame.now }
        requires state { IsStateOf meta.now self.old }
        ensures state { IsStateOf meta.now self.new }
        ensures kept { let old = kept_in meta.now.fields self.old in
            let message = frame_in meta.now.fields frame.now in
            kept_in meta.now.fields self.new ≡
            (frame_case numbering meta.now.major old message stamp).0 }
        ensures took { let old = kept_in meta.now.fields self.old in
            let message = frame_in meta.now.fields frame.now in
            result ≡ (frame_case numbering meta.now.major old message stamp).1 }
    {
        if let Some(got) = frame.major {
            if got != meta.major() {
                return unbroken(Outcome::WrongMajor { got });
            }
        }
        match numbering {
            Numbering::Unnumbered => self.unnumbered(meta, &frame.kind),
            Numbering::Message => self.numbered(meta, &frame.kind, frame.number, stamp),
        }
    }

    // With no numbering.
    fn unnumbered(&mut self, meta: &Meta, kind: &FrameKind) -> Took
        requires kind { IsKindOf meta.now kind.now }
        requires state { IsStateOf meta.now self.old }
        ensures state { IsStateOf meta.now self.new }
        ensures kept { let content = content_in meta.now.fields kind.now in
            kept_in meta.now.fields self.new ≡
            (unnumbered_case (kept_in meta.now.fields self.old) content).0 }
        ensures took { let content = content_in meta.now.fields kind.now in
            result ≡ (unnumbered_case (kept_in meta.now.fields self.old) content).1 }
    {
        unbroken(match kind {
            FrameKind::Whole(row) => {
                self.hold(meta, row);
                Outcome::Held
            }
            FrameKind::Change(_) => Outcome::Unnumbered,
            FrameKind::Alive => Outcome::Alive,
        })
    }

    // With numbering by message.
    fn numbered(
        &mut self,
        meta: &Meta,
        kind: &FrameKind,
        number: Option<u16>,
        stamp: Option<u32>,
    ) -> Took
        requires kind { IsKindOf meta.now kind.now }
        requires state { IsStateOf meta.now self.old }
        ensures state { IsStateOf meta.now self.new }
        ensures kept { let content = content_in meta.now.fields kind.now in
            kept_in meta.now.fields self.new ≡
            (numbered_case (kept_in meta.now.fields self.old) content stamp number).0 }
        ensures took { let content = content_in meta.now.fields kind.now in
            result ≡ (numbered_case (kept_in meta.now.fields self.old) content stamp number).1 }
    {
        let Some(number) = number else {
            return unbroken(Outcome::Unnumbered);
        };
        self.mark(stamp);
        self.place(meta, kind, number)
    }

    /// Forgets where the run of messages was, and the row.
    pub fn cut(&mut self, why: Why)
        ensures kept { (fields : List Field) → kept_in fields self.new
            ≡ cut_kept why (kept_in fields self.old) }
        ensures state { (meta : MetaData) → IsStateOf meta self.new }
    {
        self.last = None;
        self.stamp = None;
        self.number = None;
        self.holds = false;
        self.why = why;
    }

    pub fn row(&self) -> Option<&Row>
        ensures row { (fields : List Field) → option_map (λ row. row_in fields row.now.words) result
            ≡ (kept_in fields self.now).row }
        ensures belongs { (meta : MetaData) → IsStateOf meta self.now
            → IfSome result (λ row. Belongs meta row.now.words) }
    {
        if self.holds {
            Some(self.held.row())
        } else {
            None
        }
    }

    // Keeps the greatest stamp; a jump cuts the reader.
    fn mark(&mut self, stamp: Option<u32>)
        ensures kept { (fields : List Field) → kept_in fields self.new
            ≡ stamped (kept_in fields self.old) stamp }
        ensures state { (meta : MetaData) → IsStateOf meta self.old → IsStateOf meta self.new }
    {
        let Some(stamp) = stamp else {
            return;
        };
        let Some(high) = self.stamp else {
            self.stamp = Some(stamp);
            return;
        };
        if stamp.saturating_sub(high) < JUMP {
            self.stamp = Some(stamp.max(high));
            return;
        }
        self.cut(Why::Jump);
        self.stamp = Some(stamp);
    }

    // Finds whether the frame is a record, and whether the run of messages breaks at it.
    fn place(&mut self, meta: &Meta, kind: &FrameKind, number: u16) -> Took
        requires kind { IsKindOf meta.now kind.now }
        requires state { IsStateOf meta.now self.old }
        ensures state { IsStateOf meta.now self.new }
        ensures kept { let old = kept_in meta.now.fields self.old in
            let content = content_in meta.now.fields kind.now in
            kept_in meta.now.fields self.new ≡
            (placed_case old content number (record_number content number) old.last).0 }
        ensures took { let old = kept_in meta.now.fields self.old in
            let content = content_in meta.now.fields kind.now in
            result ≡ (placed_case old content number (record_number content number) old.last).1 }
    {
        let here = record_number(kind, number);
        if self.has_passed(here) {
            return unbroken(older(kind));
        }
        let broke = self.go_on(kind, number, here);
        Took {
            outcome: self.record(meta, kind, number, broke.is_some()),
            broke,
        }
    }

    // Whether a frame that stands here isn't newer than the last record.
    fn has_passed(&self, here: u16) -> bool
        ensures { result ≡ has_passed here self.now.last }
    {
        match self.last {
            None => false,
            Some(last) => !newer(here, last),
        }
    }

    // Goes on to the record that stands here, and tells whether the run of messages breaks at it. A break is counted and shown.
    fn go_on(&mut self, kind: &FrameKind, number: u16, here: u16) -> Option<Break>
        ensures kept { (fields : List Field) → let old = kept_in fields self.old in
            kept_in fields self.new ≡ noted_if (placed_at old here) result }
        ensures broke { (fields : List Field)
            → result ≡ break_at (content_in fields kind.now) number self.old.last }
        ensures state { (meta : MetaData) → IsStateOf meta self.old → IsStateOf meta self.new }
    {
        let last = self.last;
        self.last = Some(here);
        let due = last?.wrapping_add(1);
        if !is_alive(kind) && number == due {
            return None;
        }
        let broke = Break {
            expected: due,
            got: number,
        };
        self.note(broke);
        Some(broke)
    }

    fn note(&mut self, found: Break)
        ensures kept { (fields : List Field) → kept_in fields self.new
            ≡ noted (kept_in fields self.old) found }
        ensures state { (meta : MetaData) → IsStateOf meta self.old → IsStateOf meta self.new }
    {
        self.breaks = self.breaks.saturating_add(1);
        push_recent(&mut self.recent, found);
    }

    fn record(&mut self, meta: &Meta, kind: &FrameKind, number: u16, broke: bool) -> Outcome
        requires kind { IsKindOf meta.now kind.now }
        requires state { IsStateOf meta.now self.old }
        ensures state { IsStateOf meta.now self.new }
        ensures kept { let content = content_in meta.now.fields kind.now in
            kept_in meta.now.fields self.new ≡
            (record_case (kept_in meta.now.fields self.old) content number broke).0 }
        ensures outcome { let content = content_in meta.now.fields kind.now in
            result ≡ (record_case (kept_in meta.now.fields self.old) content number broke).1 }
    {
        match kind {
            FrameKind::Whole(row) => {
                self.hold(meta, row);
                self.number = Some(number);
                Outcome::Held
            }
            FrameKind::Change(patch) => {
                if broke || !self.holds {
                    return self.wait(broke);
                }
                self.held.lay(meta, patch);
                self.number = Some(number);
                Outcome::Held
            }
            FrameKind::Alive => self.wait(broke),
        }
    }

    fn hold(&mut self, meta: &Meta, row: &Row)
        requires { Belongs meta.now row.now.words }
        ensures row { self.new.held.row ≡ row.now }
        ensures kept { self.new ≡ record self.old { holds = true; held = self.new.held } }
    {
        self.held.hold(meta, row);
        self.holds = true;
    }

    // A row that is held is lost where the run of messages broke.
    fn wait(&mut self, broke: bool) -> Outcome
        ensures kept { self.new
            ≡ (if broke then record self.old { holds = false; number = None; why = Why.Gap } else
            self.old) }
        ensures outcome { result ≡ Outcome.Waiting self.new.why }
    {
        if broke {
            self.holds = false;
            self.number = None;
            self.why = Why::Gap;
        }
        Outcome::Waiting(self.why)
    }
}

// The oldest of eight breaks makes room.
fn push_recent(recent: &mut ArrayVec<Break, 8>, found: Break)
    ensures { reverse recent.new.items ≡ take 8 (found ∷ reverse recent.old.items) }
{
    if recent.is_full() {
        recent.remove(0);
    }
    recent.push(found);
}

// An answer that tells of no break.
fn unbroken(outcome: Outcome) -> Took
    ensures { result ≡ unbroken outcome }
{
    Took {
        outcome,
        broke: None,
    }
}

fn is_alive(kind: &FrameKind) -> bool
    ensures { (fields : List Field) → result ≡ is_alive (content_in fields kind.now) }
{
    matches!(kind, FrameKind::Alive)
}

// What a frame that isn't a record is answered.
fn older(kind: &FrameKind) -> Outcome
    ensures { (fields : List Field) → result ≡ older (content_in fields kind.now) }
{
    if is_alive(kind) {
        Outcome::Alive
    } else {
        Outcome::Older
    }
}

// The number of the record that a frame with this number is: a keep-alive carries that of the next data frame.
fn record_number(kind: &FrameKind, number: u16) -> u16
    ensures { (fields : List Field) → result ≡ record_number (content_in fields kind.now) number }
{
    if is_alive(kind) {
        number.wrapping_sub(1)
    } else {
        number
    }
}
