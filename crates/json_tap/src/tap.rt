//! A link that writes what is sent over it.
ghost use Rattle.std.specs.Prelude.{◌≡◌, ◌<◌, ◌^◌, [], true, false, length, IsTrue, IsSome};
ghost use Rattle.ua_base.specs.Cause.{Rose};
ghost use Rattle.ua_base.specs.Journal.{Tells};
ghost use Rattle.ua_base.specs.Links.{KeepsLink};
ghost use Rattle.ua_base.specs.Net.{Sends, Queues};
ghost use Rattle.std.proofs.Props.{props};
ghost use Rattle.json_tap.specs.Keeping.{IsOfLink};
ghost use Rattle.json_tap.specs.Reading.{LinkIsReadAs, link-prop};

use crate::book::Book;
use crate::inner::{Inner, Tapped};
use crate::line::JsonLine;
use crate::made::Made;
use ps_config::Config;
use std::alloc::Global;
use std::marker::PhantomData;
use ua_base::{Fate, Link, Opened, Received, Sent};

/// A link that passes every call on, and keeps lines in the JSON mapping (OPC 10000-14 section 7.2.5). A line is kept for each
/// datagram that was sent since it was opened by way of the tap, and that meets three conditions. It is unsecured. It has a list of
/// writer ids of the configuration. Its parts all read as frames of these writers' data sets, with a number, and with both versions
/// or neither. Each other datagram that was sent is counted as skipped, also one whose publisher isn't a text of at most 256 bytes.
/// A line takes its memory before the datagram is sent.
#[derive(Drop)]
pub struct Tap<'a, L: Link, M: Made> {
    link: &'a mut L,
    config: &'a Config,
    alloc: Global,
    book: Book,
    is_open: bool,
    made: PhantomData<M>,
    ghost same_loan: { link.ghost_name ≡ M.loan },
    ghost same_config: { config.now ≡ M.config },
    ghost unopened: { is_open ≡ false
        → (L.told link.now ≡ M.told) × (L.opened_with link.now ≡ M.opening) },
    ghost opened: { is_open ≡ true → IsSome (L.opened_with link.now) },
    ghost kept: { is_open ≡ true
        → IsOfLink M.config (L.told link.now) book.lines.items book.skipped },
    ghost read: { is_open ≡ true → LinkIsReadAs M.config (L.told link.now) } by { Prim.hlevel (link-prop, props) },
}

impl<'a, L: Link, M: Made> Tap<'a, L, M> {
    ghost use Rattle.json_tap.specs.Taps.{link_of, lines_in, skipped_in, is_open};

    /// A tap over a link, for the datagrams of this configuration. What it writes begins with its opening.
    pub fn new(alloc: Global, inner: Inner<'a, L>, config: &'a Config) -> Tap<'a, L, M>
        requires loan { inner.link.ghost_name ≡ M.loan }
        requires config { config.now ≡ M.config }
        requires told { L.told inner.link.now ≡ M.told }
        requires opening { L.opened_with inner.link.now ≡ M.opening }
        ensures link { link_of result ≡ inner.entry.link.now }
        ensures lines { lines_in result ≡ [] }
        ensures skipped { skipped_in result ≡ 0 }
        ensures unopened { is_open result ≡ false }
    {
        let Inner { link } = inner;
        Tap {
            link,
            config,
            alloc,
            book: Book {
                lines: Vec::new(alloc),
                skipped: 0,
            },
            is_open: false,
            made: PhantomData,
        }
    }

    /// The lines, in the order of the datagrams.
    pub fn lines(&self) -> &[JsonLine]
        ensures lines { result.now ≡ lines_in self.now }
        ensures of_sent { is_open self.now ≡ true → IsOfLink
            M.config (L.told (link_of self.now)) result.now (skipped_in self.now) }
    {
        &self.book.lines
    }

    /// How many datagrams that were sent gave no line. The count stands still at 2^64 - 1.
    pub fn skipped(&self) -> u64
        ensures skipped { result ≡ skipped_in self.now }
        ensures of_sent { is_open self.now ≡ true → IsOfLink
            M.config (L.told (link_of self.now)) (lines_in self.now) result }
    {
        self.book.skipped
    }

    /// Takes the tap off its link.
    pub fn into_parts(self) -> Tapped<'a, L>
        ensures same_loan { result.link.ghost_name ≡ M.loan }
        ensures link { result.link.now ≡ link_of self.entry }
        ensures lines { result.lines.items ≡ lines_in self.entry }
        ensures skipped { result.skipped ≡ skipped_in self.entry }
        ensures of_sent { is_open self.entry ≡ true → IsOfLink
            M.config (L.told result.link.now) result.lines.items result.skipped }
        ensures read { is_open self.entry ≡ true → LinkIsReadAs M.config (L.told result.link.now) }
        ensures opened { is_open self.entry ≡ true → IsSome (L.opened_with result.link.now) }
        ensures unopened { is_open self.entry ≡ false
            → (L.told result.link.now ≡ M.told) × (L.opened_with result.link.now ≡ M.opening) }
    {
        let Tap { link, book, .. } = self;
        let Book { lines, skipped } = book;
        Tapped {
            link,
            lines,
            skipped,
        }
    }
}

/// It tells, tells on and fails as its link does, was made and is counted as its link, and is opened with what its link was opened
/// with by way of the tap.
impl<L: Link, M: Made> Link for Tap<'_, L, M> {
    ghost use Rattle.json_tap.specs.Taps.{link_of, lines_in, skipped_in, is_open};
    ghost use Rattle.json_tap.specs.Keeping.{opened_if, KeepsSent};

    ghost takes_memory = { true };

    ghost told = { λ t. L.told (link_of t) };

    ghost patience = { λ t. L.patience (link_of t) };

    ghost faults = { λ t. L.faults (link_of t) };

    ghost opened_with = { λ t. opened_if (is_open t) (L.opened_with (link_of t)) };

    ghost made = { λ t. L.made (link_of t) };

    ghost openings = { λ t. L.openings (link_of t) };

    fn open(&mut self, port: u16, fates: &[(u64, Fate)]) -> Opened {
        let opened = self.link.open(port, fates);
        if opened == Opened::Done {
            self.book.clear();
            self.is_open = true;
        }
        opened
    }

    /// The line's memory is taken first: where it can't be had, the link isn't called.
    fn send(&mut self, datagram: &[u8]) -> Sent
        requires open { IsSome (opened_if (is_open self.old) (L.opened_with (link_of self.old))) }
        requires short { length datagram.now < 2 ^ 32 }

        ensures entry { Tells (L.told (link_of self.old)) (L.told (link_of self.new))
            (Sends datagram.now result) }
        ensures waiting { Tells (L.told (link_of self.old)) (L.told (link_of self.new))
            (Queues result) }
        ensures link { KeepsLink (λ t. L.told (link_of t)) (λ t. L.patience (link_of t))
            (λ t. opened_if (is_open t) (L.opened_with (link_of t)))
            (λ t. L.faults (link_of t)) (λ t. L.made (link_of t)) (λ t. L.openings (link_of t))
            0 self.old self.new }
        ensures only_where_taken { result ≡ Sent.Memory → IsTrue true }
        ensures cause { result ≡ Sent.Failed
            → Rose (L.faults (link_of self.old)) (L.faults (link_of self.new)) }

        ensures line { KeepsSent M.config datagram.now result
            (lines_in self.old) (lines_in self.new) (skipped_in self.old) (skipped_in self.new) }
    {
        let Ok(line) = self.book.line_for(self.alloc, self.config, datagram) else {
            return Sent::Memory;
        };
        let sent = self.link.send(datagram);
        self.book.settle(sent, line);
        sent
    }

    fn receive(&mut self, into: &mut [u8]) -> Received {
        self.link.receive(into)
    }
}
