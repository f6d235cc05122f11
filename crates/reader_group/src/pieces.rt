//! The parts of a datagram that a reader of a group is given.
ghost use Rattle.std.specs.Prelude.{◌≡◌, option_map};
ghost use Rattle.std.specs.Option.{option_copied};
ghost use Rattle.seq_number.specs.Numbers.{number_of_place};
ghost use Rattle.chunker.specs.Joining.{chunk_of};
ghost use Rattle.fixed_layout.specs.Datagrams.{slot_of};
ghost use Rattle.reader_group.specs.MemberWords.{IsLaidIn};
ghost use Rattle.reader_group.specs.Notices.{bad_frame, bad_part};
ghost use Rattle.reader_group.specs.Payloads.{reader_slot};

use crate::account::Account;
use crate::member::Member;
use crate::notice::{PartFault, PartOutcome};
use crate::payload::{Messages, Payload};
use crate::receipt::Receipt;
use crate::slot_frame::read_slot_frame_into;
use chunker::{Joined, Joiner, read_chunk};
use dataset_meta::Meta;
use frame_codec::{FrameFault, field_fault, read_frame_into};
use ps_config::ReaderPart;

impl Member {
    ghost use Rattle.std.specs.Prelude.{◌≡◌, ◌≤◌, ◌<◌, ◌+◌, length};
    ghost use Rattle.frame_codec.specs.Words.{frame_in};
    ghost use Rattle.frame_codec.specs.Calls.{leaving};
    ghost use Rattle.frame_codec.specs.Reading.{frame_at};
    ghost use Rattle.ps_config.specs.declared.parts.ReaderPart.{ReaderPart as AnyPart};
    ghost use Rattle.reader_group.specs.Payloads.{Message, Chunked, slot_piece};
    ghost use Rattle.reader_group.specs.SlotFrames.{slot_frame_at};
    ghost use Rattle.reader_group.specs.Held.{payload_in, messages_in, listed_at};
    ghost use Rattle.reader_group.specs.MemberWords.{HoldsRowsOf, Stays, IsFedBy, TakesParts, IsOffered, FollowsPiece, FollowsJoined, ReadsJoined, IsGivenKept};

    /// What a datagram brings the reader: with a higher token a cut, and where it is enabled its parts.
    pub fn feed(
        &mut self,
        part: &ReaderPart,
        meta: &Meta,
        receipt: &Receipt,
        raised: bool,
        enabled: bool,
        payload: &Payload<'_>,
    ) -> Account
        requires { HoldsRowsOf meta.now self.old }
        ensures fed { IsFedBy part.now meta.now receipt.now raised enabled (payload_in payload.now)
            self.old self.new result }
        ensures reader { HoldsRowsOf meta.now self.new }
        ensures matched { result.tally.matched ≤ 255 }
        ensures bad { result.tally.bad ≤ 255 }
    {
        self.cut_if_raised(raised);
        if enabled {
            self.take(part, meta, receipt, payload)
        } else {
            Account::NONE
        }
    }

    // The parts that are the reader's.
    fn take(
        &mut self,
        part: &ReaderPart,
        meta: &Meta,
        receipt: &Receipt,
        payload: &Payload<'_>,
    ) -> Account
        requires { HoldsRowsOf meta.now self.old }
        ensures fed { TakesParts part.now meta.now receipt.now (payload_in payload.now)
            self.old self.new result }
        ensures reader { HoldsRowsOf meta.now self.new }
        ensures matched { result.tally.matched ≤ 255 }
        ensures bad { result.tally.bad ≤ 255 }
    {
        match payload {
            Payload::Slots(datagram) => Account::of_one(self.slot(part, meta, receipt, datagram)),
            Payload::Chunk { writer, bytes } if *writer == part.writer => {
                Account::of_one(self.chunk(meta, receipt, bytes))
            }
            Payload::Chunk { .. } => Account::NONE,
            Payload::Messages(messages) => self.messages(part, meta, receipt, messages),
        }
    }

    // Of the messages those of the reader's writer, in their order.
    fn messages(
        &mut self,
        part: &ReaderPart,
        meta: &Meta,
        receipt: &Receipt,
        messages: &Messages<'_>,
    ) -> Account
        requires { HoldsRowsOf meta.now self.old }
        ensures fed { TakesParts part.now meta.now receipt.now (messages_in messages.now)
            self.old self.new result }
        ensures reader { HoldsRowsOf meta.now self.new }
        ensures matched { result.tally.matched ≤ 255 }
        ensures bad { result.tally.bad ≤ 255 }
    {
        let count = messages.parts.len();
        let mut account = Account::NONE;
        let mut index = messages.next_of(part.writer, 0);
        while index < count {
            self.offer(part, meta, receipt, messages, index, &mut account);
            index = messages.next_of(part.writer, index + 1);
        }
        account
    }

    // One of the messages, which is of the reader's writer.
    fn offer(
        &mut self,
        part: &ReaderPart,
        meta: &Meta,
        receipt: &Receipt,
        messages: &Messages<'_>,
        index: usize,
        account: &mut Account,
    )
        requires reader { HoldsRowsOf meta.now self.old }
        requires index { index < length messages.now.parts.now }
        requires own { (listed_at messages.now index).0 ≡ part.now.writer }
        requires matched { account.old.tally.matched < 255 }
        requires bad { account.old.tally.bad < 255 }
        ensures fed { IsOffered part.now meta.now receipt.now (listed_at messages.now index)
            self.old account.old self.new account.new }
        ensures reader { HoldsRowsOf meta.now self.new }
        ensures matched { account.new.tally.matched ≤ account.old.tally.matched + 1 }
        ensures bad { account.new.tally.bad ≤ account.old.tally.bad + 1 }
    {
        let outcome = self.message(meta, receipt, messages.message(index));
        account.count(outcome);
    }

    // What stands in the reader's slot; it is missing where the datagram ends before the slot does.
    fn slot(
        &mut self,
        part: &ReaderPart,
        meta: &Meta,
        receipt: &Receipt,
        datagram: &[u8],
    ) -> PartOutcome
        requires { HoldsRowsOf meta.now self.old }
        ensures case { FollowsPiece part.now meta.now receipt.now
            (slot_piece (slot_of datagram.now (reader_slot part.now))) self.old self.new result }
        ensures reader { HoldsRowsOf meta.now self.new }
    {
        let Some(bytes) = slot_of(part, datagram) else {
            return bad(PartFault::Missing);
        };
        match self.read_slot(meta, bytes) {
            Ok(()) => self.give_kept(meta, receipt),
            Err(fault) => bad_frame(meta, bytes, fault),
        }
    }

    // Reads a slot over the frame that is kept.
    fn read_slot(&mut self, meta: &Meta, bytes: &[u8]) -> Result<(), FrameFault>
        requires { HoldsRowsOf meta.now self.old }
        ensures member { Stays self.old self.new }
        ensures answer { leaving result (frame_in meta.now.fields self.new.frame)
            ≡ slot_frame_at meta.now bytes.now }
        ensures reader { HoldsRowsOf meta.now self.new }
    {
        read_slot_frame_into(meta, bytes, &mut self.frame)
    }

    // A message.
    fn message(&mut self, meta: &Meta, receipt: &Receipt, bytes: &[u8]) -> PartOutcome
        requires { HoldsRowsOf meta.now self.old }
        ensures case { (part : AnyPart)
            → FollowsPiece part meta.now receipt.now (Message bytes.now) self.old self.new result }
        ensures reader { HoldsRowsOf meta.now self.new }
    {
        match self.read(meta, bytes) {
            Ok(()) => self.give_kept(meta, receipt),
            Err(fault) => bad_frame(meta, bytes, fault),
        }
    }

    // Reads a message over the frame that is kept.
    fn read(&mut self, meta: &Meta, bytes: &[u8]) -> Result<(), FrameFault>
        requires { HoldsRowsOf meta.now self.old }
        ensures member { Stays self.old self.new }
        ensures answer { leaving result (frame_in meta.now.fields self.new.frame)
            ≡ frame_at meta.now bytes.now }
        ensures reader { HoldsRowsOf meta.now self.new }
    {
        read_frame_into(meta, bytes, &mut self.frame)
    }

    // A chunk of a message, and the message where it is whole then.
    fn chunk(&mut self, meta: &Meta, receipt: &Receipt, bytes: &[u8]) -> PartOutcome
        requires { HoldsRowsOf meta.now self.old }
        ensures case { (part : AnyPart)
            → FollowsPiece part meta.now receipt.now (Chunked bytes.now) self.old self.new result }
        ensures reader { HoldsRowsOf meta.now self.new }
    {
        let chunk = match read_chunk(bytes) {
            Ok(chunk) => chunk,
            Err(fault) => return bad(PartFault::Chunk(fault)),
        };
        match lay(
            &mut self.joiner,
            chunk.number,
            chunk.offset,
            chunk.total,
            chunk.data,
        ) {
            Joined::Whole(_) => self.joined(meta, receipt),
            Joined::Part | Joined::Older => PartOutcome::Laid,
            Joined::TooLong { total } => bad(PartFault::TooLong { total }),
            Joined::BadRange { offset, total } => bad(PartFault::BadRange { offset, total }),
            Joined::Differs { first, now } => bad(PartFault::Differs { first, now }),
        }
    }

    // The message that was joined.
    fn joined(&mut self, meta: &Meta, receipt: &Receipt) -> PartOutcome
        requires { HoldsRowsOf meta.now self.old }
        ensures case { FollowsJoined meta.now receipt.now self.old self.new result }
        ensures reader { HoldsRowsOf meta.now self.new }
    {
        match self.read_joined(meta) {
            Ok(()) => self.give_kept(meta, receipt),
            Err(fault) => bad_frame(meta, self.joiner.bytes(), fault),
        }
    }

    // Reads the message that was joined over the frame that is kept.
    fn read_joined(&mut self, meta: &Meta) -> Result<(), FrameFault>
        requires { HoldsRowsOf meta.now self.old }
        ensures member { Stays self.old self.new }
        ensures answer { ReadsJoined meta.now self.old result self.new }
        ensures reader { HoldsRowsOf meta.now self.new }
    {
        read_frame_into(meta, self.joiner.bytes(), &mut self.frame)
    }

    // The reader is given the frame that is kept.
    fn give_kept(&mut self, meta: &Meta, receipt: &Receipt) -> PartOutcome
        requires { HoldsRowsOf meta.now self.old }
        ensures member { IsGivenKept meta.now receipt.now self.old self.new result }
        ensures reader { HoldsRowsOf meta.now self.new }
    {
        carries_short(self.frame.number);
        let took = self.reader.frame(meta, &self.frame, receipt.stamp);
        self.note(receipt.moment, took.outcome);
        PartOutcome::Given(took)
    }
}

// A frame that can't be read, and the field at which it can't, which is sought once more.
fn bad_frame(meta: &Meta, bytes: &[u8], fault: FrameFault) -> PartOutcome
    ensures { result ≡ bad_frame meta.now bytes.now fault }
{
    PartOutcome::Bad {
        fault: PartFault::Frame(fault),
        field: field_fault(meta, bytes),
    }
}

// A part that can't be read for what is no field's.
fn bad(fault: PartFault) -> PartOutcome
    ensures { result ≡ bad_part fault }
{
    PartOutcome::Bad { fault, field: None }
}

// A number that is carried has 16 bits.
fn carries_short(number: Option<u16>)
    ensures { option_map number_of_place number ≡ number }
{
    match number {
        Some(number) => is_short(number),
        None => {}
    }
}

fn is_short(number: u16)
    ensures { number_of_place number ≡ number }
{}

// A chunk whose number is carried is laid in.
fn lay(joiner: &mut Joiner, number: u16, offset: u32, total: u32, part: &[u8]) -> Joined
    ensures { IsLaidIn (chunk_of number offset total part.now) joiner.old joiner.new result }
{
    joiner.chunk(number, offset, total, part)
}

// What stands in a reader's slot, if the datagram has it whole.
fn slot_of<'a>(part: &ReaderPart, datagram: &'a [u8]) -> Option<&'a [u8]>
    ensures { option_copied result ≡ slot_of datagram.now (reader_slot part.now) }
{
    let end = part.offset as usize + part.size as usize;
    datagram.get(part.offset as usize..end)
}
