//! Read groups.
ghost use Rattle.std.specs.Prelude.{◌≤◌, length};

use crate::feeding::{expire_all, feed_all, part_count, stop_one};
use crate::filter::{refusal_of, takes_number};
use crate::guarding::{new_guard, pair_on, stamp_of};
use crate::making::{new_members, part_at};
use crate::member::Member;
use crate::notice::Notice;
use crate::opening::{Buffers, new_room, open, payload_held};
use crate::receipt::{Receipt, TokenNumber};
use crate::refusal::{Refusal, Taken};
use crate::refused::Refused;
use dataset_reader::Reader;
use group_keys::Ring;
use message_guard::Guard;
use ps_config::Config;
use pubsub_model::Why;
use std::alloc::Global;
use ua_base::NoMemory;
use uadp_header::{Header, HeaderFault};

/// A read group of a configuration (OPC 10000-14 6.2.8, ReaderGroup): its guard, and its readers with their timers and chunks.
#[derive(Drop)]
pub struct ReaderGroup {
    index: u8,
    guard: Box<Guard>,
    members: Vec<Member>,
    // what is noted of each reader, by its index
    notices: [Notice; 16],
    // of the last datagram that was accepted under a security header
    pair: Option<TokenNumber>,
    refused: Refused,
    // room for what one datagram tells; it says nothing between two
    room: Box<Buffers>,
    ghost few: { length members.items ≤ 16 },
}

impl ReaderGroup {
    ghost use Rattle.std.specs.Prelude.{◌≡◌, ◌<◌, length, map, IfErr, IfNone, IfOk, IfSome, OnErr};
    ghost use Rattle.ps_config.specs.declared.parts.Config.{Config as AnyConfig};
    ghost use Rattle.ps_config.specs.Sound.{IsSound};
    ghost use Rattle.group_keys.specs.Ring.{key_sets};
    ghost use Rattle.message_guard.specs.Protection.{keys_in};
    ghost use Rattle.uadp_header.specs.Reading.{GivesHeader};
    ghost use Rattle.reader_group.specs.Filter.{takes_number};
    ghost use Rattle.reader_group.specs.Notices.{notice_at};
    ghost use Rattle.reader_group.specs.Plain.{Setting, Got, Expired, Stopped};
    ghost use Rattle.reader_group.specs.Refused.{KeepsSender, none_refused, refused_on};
    ghost use Rattle.reader_group.specs.Groups.{IsOpening, TakesOn, StepsBy, IsAnswer, AreLeft, IsKeptAt, IsPassedAt, IsMadeAt, IsLateAt, IsReadyAt, IsDueAt, IsConfirmedAt, IsFreshAt, IsMadeOf, IsRefusedUnread, AreNoticed, HadIf, GoesOnWith, index_of, reader_count, guard_of, members_of, notices_of, no_notices, refused_of, pair_of, IsLastTaken};

    /// The read group with this index, before anything.
    pub fn new(alloc: Global, config: &Config, index: u8) -> Result<ReaderGroup, NoMemory>
        requires sound { IsSound config.now }
        requires index { index < length config.now.readgroup }
        ensures made { IfOk result (IsMadeOf config.now) }
        ensures index { IfOk result (λ group. index_of group ≡ index) }
        ensures opening { IfOk result (IsOpening config.now index) }
        ensures refused { IfOk result (λ group. refused_of group ≡ none_refused) }
        ensures notices { IfOk result (λ group. notices_of group ≡ no_notices) }
    {
        let part = part_at(config, index);
        let members = new_members(alloc, config, part)?;
        let room = new_room(alloc)?;
        let guard = new_guard(alloc, config, part)?;
        Ok(ReaderGroup {
            index,
            guard,
            members,
            notices: [Notice::default(); 16],
            pair: None,
            refused: Refused::default(),
            room,
        })
    }

    /// A datagram comes at this moment, in milliseconds, where these readers are enabled. One that is refused changes nothing but
    /// what `refused` shows, and the bytes. They are decrypted in place where the group's mode encrypts and neither the header, nor
    /// the filter, nor the guard refuses the datagram; else they stay.
    pub fn datagram(
        &mut self,
        config: &Config,
        now: u64,
        on: &[bool],
        bytes: &mut [u8],
    ) -> Result<Taken, Refusal>
        requires made { IsMadeOf config.now self.old }
        requires on { length on.now ≡ reader_count self.old }
        ensures step { StepsBy config.now (Got now on.now bytes.old) self.old self.new }
        ensures answer { IsAnswer config.now self.old now on.now bytes.old result }
        ensures bytes { AreLeft config.now self.old bytes.old bytes.new }
        ensures notices { AreNoticed config.now self.old now on.now bytes.old self.new }
        ensures refused_guard { OnErr result (guard_of self.new ≡ guard_of self.old) }
        ensures refused_members { OnErr result (members_of self.new ≡ members_of self.old) }
        ensures refused_pair { OnErr result (pair_of self.new ≡ pair_of self.old) }
        ensures refused { refused_of self.new ≡ refused_on (refused_of self.old) result bytes.old }
        ensures made { IsMadeOf config.now self.new }
        ensures index { index_of self.new ≡ index_of self.old }
    {
        let answer = self.take(config, now, on, bytes);
        self.refused.note(&answer, bytes);
        answer
    }

    /// What `datagram` does, for this NetworkMessageNumber alone (OPC 10000-14 7.2.4.4): a datagram whose header carries another or
    /// none is refused as `NotOurs`, and its bytes stay. 0 asks for any, also for none.
    pub fn datagram_of_number(
        &mut self,
        config: &Config,
        number: u16,
        now: u64,
        on: &[bool],
        bytes: &mut [u8],
    ) -> Result<Taken, Refusal>
        requires made { IsMadeOf config.now self.old }
        requires on { length on.now ≡ reader_count self.old }
        ensures had { HadIf (takes_number number bytes.old) config.now self.old self.new now on.now
            bytes.old bytes.new result }
        ensures refused_guard { OnErr result (guard_of self.new ≡ guard_of self.old) }
        ensures refused_members { OnErr result (members_of self.new ≡ members_of self.old) }
        ensures refused_pair { OnErr result (pair_of self.new ≡ pair_of self.old) }
        ensures refused { refused_of self.new ≡ refused_on (refused_of self.old) result bytes.old }
        ensures made { IsMadeOf config.now self.new }
        ensures index { index_of self.new ≡ index_of self.old }
    {
        if takes_number(number, bytes) {
            return self.datagram(config, now, on, bytes);
        }
        let answer = Err(Refusal::NotOurs);
        self.refused.note(&answer, bytes);
        answer
    }

    /// What `datagram_of_number` does where the header, of which this was read, is enough to refuse the datagram: its bytes needn't be
    /// lent to be written. None, and nothing changes, where more has to be read.
    pub fn refuse(
        &mut self,
        config: &Config,
        number: u16,
        bytes: &[u8],
        read: &Result<(Header<'_>, usize), HeaderFault>,
    ) -> Option<Refusal>
        requires made { IsMadeOf config.now self.old }
        requires read { GivesHeader read.now bytes.now }
        ensures refused { IfSome result
            (IsRefusedUnread config.now number bytes.now self.old self.new) }
        ensures none { IfNone result (self.new ≡ self.old) }
        ensures made { IsMadeOf config.now self.new }
        ensures index { index_of self.new ≡ index_of self.old }
        ensures members { members_of self.new ≡ members_of self.old }
    {
        let part = part_at(config, self.index);
        let Some(refusal) = refusal_of(part, number, read) else {
            return None;
        };
        self.refused.note_read(refusal, read);
        Some(refusal)
    }

    // What `datagram` does, but that a refusal isn't kept.
    fn take(
        &mut self,
        config: &Config,
        now: u64,
        on: &[bool],
        bytes: &mut [u8],
    ) -> Result<Taken, Refusal>
        requires made { IsMadeOf config.now self.old }
        requires on { length on.now ≡ reader_count self.old }
        ensures step { StepsBy config.now (Got now on.now bytes.old) self.old self.new }
        ensures answer { IsAnswer config.now self.old now on.now bytes.old result }
        ensures bytes { AreLeft config.now self.old bytes.old bytes.new }
        ensures notices { AreNoticed config.now self.old now on.now bytes.old self.new }
        ensures sender { IfErr result (KeepsSender bytes.old bytes.new) }
        ensures refused_guard { OnErr result (guard_of self.new ≡ guard_of self.old) }
        ensures refused_members { OnErr result (members_of self.new ≡ members_of self.old) }
        ensures refused_pair { OnErr result (pair_of self.new ≡ pair_of self.old) }
        ensures refused { refused_of self.new ≡ refused_of self.old }
        ensures made { IsMadeOf config.now self.new }
        ensures index { index_of self.new ≡ index_of self.old }
    {
        let part = part_at(config, self.index);
        let begun = open(part, &self.guard, &mut self.room, bytes)?;
        let raised = self.guard.accept(begun.pass);
        self.pair = pair_on(part.security, &begun.pass, self.pair);
        let payload = payload_held(part.layout, &begun, &self.room, bytes);
        let receipt = Receipt {
            moment: now,
            stamp: stamp_of(part.security, begun.pass.number),
        };
        let tally = feed_all(
            &mut self.members,
            &mut self.notices,
            config,
            part,
            &receipt,
            raised,
            on,
            &payload,
        );
        Ok(Taken {
            parts: part_count(on, &payload),
            matched: tally.matched,
            bad: tally.bad,
        })
    }

    /// Cuts each reader whose timer has run out at this moment, in milliseconds. Such a reader is late, and isn't ready.
    pub fn expire(&mut self, now: u64)
        ensures step { (setting : Setting) → TakesOn setting (Expired now) self.old self.new }
        ensures refused { refused_of self.new ≡ refused_of self.old }
        ensures pair { pair_of self.new ≡ pair_of self.old }
        ensures notices { notices_of self.new ≡ notices_of self.old }
        ensures made { (config : AnyConfig) → IsMadeOf config self.old → IsMadeOf config self.new }
        ensures index { index_of self.new ≡ index_of self.old }
    {
        expire_all(&mut self.members, now);
    }

    /// Cuts a reader by hand: it forgets its row and its last number, the chunks, and when its last message came, and it isn't
    /// ready. It stays late where a timeout made it so.
    pub fn cut(&mut self, index: u8, why: Why)
        requires { index < reader_count self.old }
        ensures step { (setting : Setting) → TakesOn setting (Stopped index why) self.old self.new }
        ensures refused { refused_of self.new ≡ refused_of self.old }
        ensures pair { pair_of self.new ≡ pair_of self.old }
        ensures notices { notices_of self.new ≡ notices_of self.old }
        ensures made { (config : AnyConfig) → IsMadeOf config self.old → IsMadeOf config self.new }
        ensures index { index_of self.new ≡ index_of self.old }
    {
        stop_one(&mut self.members, usize::from(index), why);
    }

    /// Goes on with the keys of another ring, of the same key length, as its guard does: the pairs that were taken stay taken, and so
    /// do the readers, their chunks and their timers. An unsecured group never uses them.
    pub fn renew(&mut self, ring: Ring)
        ensures keys { GoesOnWith (map keys_in (key_sets ring)) self.old self.new }
        ensures members { members_of self.new ≡ members_of self.old }
        ensures refused { refused_of self.new ≡ refused_of self.old }
        ensures pair { pair_of self.new ≡ pair_of self.old }
        ensures notices { notices_of self.new ≡ notices_of self.old }
        ensures made { (config : AnyConfig) → IsMadeOf config self.old → IsMadeOf config self.new }
        ensures index { index_of self.new ≡ index_of self.old }
    {
        self.guard.renew(ring);
    }

    /// How many readers the group has.
    pub fn count(&self) -> u8
        ensures { result ≡ reader_count self.now }
    {
        self.members.len() as u8
    }

    /// The reader with this index in the group.
    pub fn reader(&self, index: u8) -> &Reader
        requires { index < reader_count self.now }
        ensures kept { IsKeptAt self.now index result.now }
        ensures passed { IsPassedAt self.now index result.now }
        ensures made { IsMadeAt self.now index result.now }
    {
        &self.members[usize::from(index)].reader
    }

    /// Whether a reader timed out, and no record and no keep-alive came since.
    pub fn is_late(&self, index: u8) -> bool
        requires { index < reader_count self.now }
        ensures { IsLateAt self.now index result }
    {
        self.members[usize::from(index)].late
    }

    /// Whether a reader held a row, with neither a timeout nor a call of `cut` since.
    pub fn is_ready(&self, index: u8) -> bool
        requires { index < reader_count self.now }
        ensures { IsReadyAt self.now index result }
    {
        self.members[usize::from(index)].ready
    }

    /// The moment, in milliseconds, from which on `expire` cuts a reader, as long as no message comes. None where it has no timeout,
    /// where no message came since the last cut, and where 64 bits don't hold the moment.
    pub fn timeout_at(&self, index: u8) -> Option<u64>
        requires { index < reader_count self.now }
        ensures { IsDueAt self.now index result }
    {
        self.members[usize::from(index)].due_from()
    }

    /// The moment, in milliseconds, of the last message that a reader took with none missing up to it, where it holds a row: a key
    /// frame, a delta frame that follows, or a keep-alive that names the row's message as the last. A reader that goes by no
    /// numbers has it from key frames alone, since nothing would show that one was lost.
    /// It rests on message numbers alone, and so on a publisher that sends each once under a token. Where an unsecured publisher
    /// restarts with lower numbers its messages are passed over as older, and the row stays confirmed as long as keep-alives or
    /// delta frames follow on.
    pub fn confirmed(&self, index: u8) -> Option<u64>
        requires { index < reader_count self.now }
        ensures { IsConfirmedAt self.now index result }
    {
        self.members[usize::from(index)].confirmed
    }

    /// Whether a reader holds a row that was confirmed at most so many milliseconds before this moment. A row that was confirmed
    /// after it is as old as one that was confirmed at it. What `confirmed` rests on it rests on too.
    pub fn is_fresh(&self, index: u8, now: u64, bound: u64) -> bool
        requires { index < reader_count self.now }
        ensures { IsFreshAt self.now index now bound result }
    {
        match self.confirmed(index) {
            Some(moment) => now.saturating_sub(moment) <= bound,
            None => false,
        }
    }

    /// What is noted of a reader's parts, over all datagrams since the group was made: what couldn't be read, and why, what was of
    /// another major version, how many messages were missing, how often a row was stored, and when the last message was taken.
    /// `Reader::passed` tells how often messages were passed over.
    pub fn notice(&self, index: u8) -> Notice
        requires { index < reader_count self.now }
        ensures { result ≡ notice_at (notices_of self.now) index }
    {
        self.notices[usize::from(index)]
    }

    /// The token and the number of the last datagram that was accepted under a security header. None where none was, and where the
    /// group isn't secured.
    pub fn last_taken(&self) -> Option<TokenNumber>
        ensures { IsLastTaken self.now result }
    {
        self.pair
    }

    /// What the group refused since it was made.
    pub fn refused(&self) -> &Refused
        ensures { result.now ≡ refused_of self.now }
    {
        &self.refused
    }
}
