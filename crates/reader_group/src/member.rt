//! What a read group keeps for one of its readers.
ghost use Rattle.std.specs.Prelude.{◌≡◌};
ghost use Rattle.reader_group.specs.Members.{confirmed_on, names_last, numbering_of};

use chunker::Joiner;
use dataset_reader::{Numbering, Outcome, Reader};
use frame_codec::{Frame, FrameKind};
use ps_config::{NumberingWord, ReaderPart};
use pubsub_model::Why;
use receive_timer::Timer;

/// A reader, with the message whose chunks are joined, the timer of its messages, and what the tree of states is told.
#[derive(Drop)]
pub(crate) struct Member {
    pub reader: Reader,
    pub joiner: Joiner,
    timer: Timer,
    /// Whether it timed out, and no message came since.
    pub late: bool,
    /// Whether it held a row, with neither a timeout nor a cut by hand since.
    pub ready: bool,
    /// The moment of the last message that was taken with none missing up to it, where a row is held.
    pub confirmed: Option<u64>,
    /// What the next frame is read over: the last frame, or what a refused one left.
    pub frame: Frame,
}

impl Member {
    ghost use Rattle.std.specs.Prelude.{◌≡◌};
    ghost use Rattle.dataset_meta.specs.Metas.{MetaData};
    ghost use Rattle.pubsub_model.specs.declared.reading.Why.TheVariants.{NewToken};
    ghost use Rattle.reader_group.specs.Members.{Seat, MemberValue, seat_of, new_member, cut_member, stopped, expired, seen, noted, confirmed_by};
    ghost use Rattle.receive_timer.specs.Told.{TellsDue};
    ghost use Rattle.reader_group.specs.Plain.{cut_if};
    ghost use Rattle.reader_group.specs.MemberWords.{IsMemberOf, HoldsRowsOf, Becomes, IsNoted};

    /// Before anything.
    pub fn new(part: &ReaderPart) -> Member
        ensures member { (meta : MetaData) → IsMemberOf (seat_of part.now meta) new_member result }
        ensures reader { (meta : MetaData) → HoldsRowsOf meta result }
    {
        Member {
            reader: Reader::new(numbering_of(part.numbering)),
            joiner: Joiner::new(),
            timer: Timer::new(part.timeout),
            late: false,
            ready: false,
            confirmed: None,
            frame: Frame {
                number: None,
                kind: FrameKind::Alive,
                major: None,
                minor: None,
            },
        }
    }

    /// Cuts the reader, and forgets the chunks and when the last message came.
    pub fn cut(&mut self, why: Why)
        ensures member { Becomes (λ seat value. cut_member why value) self.old self.new }
        ensures reader { (meta : MetaData) → HoldsRowsOf meta self.old → HoldsRowsOf meta self.new }
    {
        self.reader.cut(why);
        self.joiner.clear();
        self.timer.clear();
        self.confirmed = None;
    }

    /// A cut by hand.
    pub fn stop(&mut self, why: Why)
        ensures member { Becomes (λ seat value. stopped why value) self.old self.new }
        ensures reader { (meta : MetaData) → HoldsRowsOf meta self.old → HoldsRowsOf meta self.new }
    {
        self.cut(why);
        self.ready = false;
    }

    /// A cut where the timer has run out.
    pub fn expire(&mut self, now: u64)
        ensures member { Becomes (λ seat value. expired seat.part.timeout now value)
            self.old self.new }
        ensures reader { (meta : MetaData) → HoldsRowsOf meta self.old → HoldsRowsOf meta self.new }
    {
        if self.timer.due(now) {
            self.cut(Why::Timeout);
            self.late = true;
            self.ready = false;
        }
    }

    /// A higher token cuts it.
    pub fn cut_if_raised(&mut self, raised: bool)
        ensures member { Becomes (λ seat value. cut_if raised NewToken value) self.old self.new }
        ensures reader { (meta : MetaData) → HoldsRowsOf meta self.old → HoldsRowsOf meta self.new }
    {
        if raised {
            self.cut(Why::NewToken);
        }
    }

    /// What the timer and the flags make of the reader's answer to the frame that is kept, which came at this moment.
    pub fn note(&mut self, now: u64, outcome: Outcome)
        ensures member { IsNoted now outcome self.old self.new }
        ensures reader { self.new.reader ≡ self.old.reader }
        ensures frame { self.new.frame ≡ self.old.frame }
    {
        self.time(now, outcome);
        self.confirm(now, outcome);
    }

    // Whether the message is seen, and the row ready.
    fn time(&mut self, now: u64, outcome: Outcome)
        ensures member { Becomes (λ seat value. noted now outcome value) self.old self.new }
        ensures reader { self.new.reader ≡ self.old.reader }
        ensures frame { self.new.frame ≡ self.old.frame }
    {
        match outcome {
            Outcome::Held => {
                self.see(now);
                self.ready = true;
            }
            Outcome::Alive | Outcome::Waiting(_) => self.see(now),
            Outcome::Older | Outcome::WrongMajor { .. } | Outcome::Unnumbered => {}
        }
    }

    // When the row was confirmed, by the number that the frame carries and the row's.
    fn confirm(&mut self, now: u64, outcome: Outcome)
        ensures member { Becomes
            (λ seat value. confirmed_by now outcome self.old.frame.number value) self.old self.new }
        ensures reader { self.new.reader ≡ self.old.reader }
        ensures frame { self.new.frame ≡ self.old.frame }
    {
        let held = self.reader.number();
        self.confirmed = confirmed_on(now, outcome, self.frame.number, held, self.confirmed);
    }

    /// The moment from which on the reader times out, as long as no message comes.
    pub fn due_from(&self) -> Option<u64>
        ensures { (seat : Seat) (value : MemberValue) → IsMemberOf seat value self.now
            → TellsDue seat.part.timeout value.told result }
    {
        self.timer.due_from()
    }

    // A message came.
    fn see(&mut self, now: u64)
        ensures member { Becomes (λ seat value. seen now value) self.old self.new }
        ensures reader { self.new.reader ≡ self.old.reader }
        ensures frame { self.new.frame ≡ self.old.frame }
    {
        self.timer.seen(now);
        self.late = false;
    }
}

// When the row was confirmed, where a message with the carried number was answered so, and the row has the held one.
fn confirmed_on(
    now: u64,
    outcome: Outcome,
    carried: Option<u16>,
    held: Option<u16>,
    before: Option<u64>,
) -> Option<u64>
    ensures { result ≡ confirmed_on now outcome carried held before }
{
    match outcome {
        Outcome::Held => Some(now),
        Outcome::Alive => {
            if names_last(carried, held) {
                Some(now)
            } else {
                before
            }
        }
        Outcome::Waiting(_) => None,
        Outcome::Older | Outcome::WrongMajor { .. } | Outcome::Unnumbered => before,
    }
}

// Whether the number that a keep-alive carries is due after the held one.
fn names_last(carried: Option<u16>, held: Option<u16>) -> bool
    ensures { result ≡ names_last carried held }
{
    match (carried, held) {
        (Some(next), Some(last)) => next == last.wrapping_add(1),
        _ => false,
    }
}

fn numbering_of(word: NumberingWord) -> Numbering
    ensures { result ≡ numbering_of word }
{
    match word {
        NumberingWord::Message => Numbering::Message,
        NumberingWord::None => Numbering::Unnumbered,
    }
}
