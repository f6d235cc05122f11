//! Datagrams on their way: what was sent, what waits in which order, what was received, and the journal of it.
ghost use Rattle.std.specs.Prelude.{◌≡◌, ◌≢◌, ◌≤◌, ◌<◌, ◌+◌, ◌-◌, ◌^◌, ◌++◌, ◌∷◌, [], ℕ, OnOk, OnErr, map, length, replicate, vec_len, vec_capacity, Some, None, MatchOption, slice_get, unwrap_or};
ghost use Rattle.std.specs.List.{All};
ghost use Rattle.std.specs.Option.{option_map};
ghost use Rattle.ua_base.specs.Journal.{Sent as SentEntry, SendFailed, ReceiveFailed, LinkState, Tells, told_more, sent_list, received_list};
ghost use Rattle.ua_base.specs.Net.{Receives, FitsBuffer};
ghost use Rattle.mem_edge.specs.Contents.{bytes_of, injected_bytes, injections};
ghost use Rattle.mem_edge.specs.Keeping.{KeepsJournal, KeepsJournal-prop};
ghost use Rattle.mem_edge.specs.Marks.{datagram_at, held_places, reach_send, IsWithin, IsMarkWithin, EndsInNothings};
ghost use Rattle.mem_edge.specs.Sends.{sends_in};

use crate::mark::{Answer, Mark, Source, count_nothing, note};
use std::alloc::{AllocError, Global};
use ua_base::Received;

/// What is injected and what was sent, with the place of each send's datagram; the places of all that was queued,
/// those before `next` taken; the places of what was received; and the journal, whose answers Nothing before the
/// first other answer are counted in `first`. It tells its journal until a count of Nothing stands at its end.
#[derive(Drop)]
pub struct Transit {
    alloc: Global,
    injected: Vec<(u64, Vec<u8>)>,
    sent: Vec<Vec<u8>>,
    places: Vec<Option<usize>>,
    queue: Vec<Source>,
    next: usize,
    received: Vec<Source>,
    first: u64,
    log: Vec<Mark>,
    tells: bool,
    ghost next_in: { next ≤ vec_len queue },
    ghost queued: { All (IsWithin (vec_len injected) (vec_len sent)) queue.items },
    ghost taken: { All (IsWithin (vec_len injected) (vec_len sent)) received.items },
    ghost marked: { All (IsMarkWithin (vec_len injected) (vec_len sent)) log.items },
    ghost numbered: { All (λ o. reach_send o ≤ vec_len sent) places.items },
    ghost short: { All (λ d. vec_len d < 2 ^ 32) sent.items },
    ghost short_injected: { All (λ p. vec_len p.1 < 2 ^ 32) injected.items },
    ghost room: { vec_len log + (vec_len queue - next) ≤ vec_capacity log },
    ghost place_room: { vec_len received + (vec_len queue - next) ≤ vec_capacity received },
    ghost kept: { KeepsJournal injected.items sent.items places.items received.items first
        log.items } by { KeepsJournal-prop injected.items sent.items places.items received.items
            first log.items },
}

// The datagram of a place.
fn datagram<'a>(injected: &'a [(u64, Vec<u8>)], sent: &'a [Vec<u8>], place: Source) -> &'a [u8]
    requires within { IsWithin (length injected.now) (length sent.now) place }
    requires short { All (λ d. vec_len d < 2 ^ 32) sent.now }
    requires short_injected { All (λ p. vec_len p.1 < 2 ^ 32) injected.now }
    ensures value { result.now
        ≡ datagram_at (injected_bytes injected.now) (bytes_of sent.now) place }
    ensures short { length result.now < 2 ^ 32 }
{
    match place {
        Source::Sent(index) => &sent[index],
        Source::Injected(index) => &injected[index].1,
    }
}

// Queues a place, for which the room is there.
fn queue_one(queue: &mut Vec<Source>, place: Source)
    requires { vec_len queue.old < vec_capacity queue.old }
    ensures items { queue.new.items ≡ queue.old.items ++ place ∷ [] }
    ensures len { vec_len queue.new ≡ vec_len queue.old + 1 }
    ensures capacity { vec_capacity queue.old ≤ vec_capacity queue.new }
{
    match queue.push(place) {
        Ok(()) => {}
        Err(_) => unreachable!(),
    }
}

// Keeps a datagram that is sent, for which the room is there.
fn keep(sent: &mut Vec<Vec<u8>>, datagram: Vec<u8>)
    requires { vec_len sent.old < vec_capacity sent.old }
    ensures items { sent.new.items ≡ sent.old.items ++ datagram ∷ [] }
    ensures len { vec_len sent.new ≡ vec_len sent.old + 1 }
{
    match sent.push(datagram) {
        Ok(()) => {}
        Err(_) => unreachable!(),
    }
}

// Writes down where a send's datagram is kept, for which the room is there.
fn number(places: &mut Vec<Option<usize>>, index: Option<usize>)
    requires { vec_len places.old < vec_capacity places.old }
    ensures items { places.new.items ≡ places.old.items ++ index ∷ [] }
    ensures len { vec_len places.new ≡ vec_len places.old + 1 }
{
    match places.push(index) {
        Ok(()) => {}
        Err(_) => unreachable!(),
    }
}

// Queues a place so many times.
fn queue_copies(queue: &mut Vec<Source>, place: Source, times: usize)
    requires { vec_len queue.old + times ≤ vec_capacity queue.old }
    ensures items { queue.new.items ≡ queue.old.items ++ replicate times place }
    ensures capacity { vec_capacity queue.old ≤ vec_capacity queue.new }
    ensures len { vec_len queue.new ≡ vec_len queue.old + times }
{
    for done in 0..times {
        let _ = done;
        queue_one(queue, place);
    }
}

// Queues the held datagrams that were sent.
fn queue_held(queue: &mut Vec<Source>, places: &[Option<usize>], held: &[(u64, usize)])
    requires { vec_len queue.old + length held.now ≤ vec_capacity queue.old }
    ensures items { queue.new.items ≡ queue.old.items ++ held_places places.now held.now }
    ensures capacity { vec_capacity queue.old ≤ vec_capacity queue.new }
    ensures len { vec_len queue.new ≤ vec_len queue.old + length held.now }
{
    for hold in held {
        match place_of(places, hold.1) {
            Some(place) => queue_one(queue, place),
            None => {}
        }
    }
}

// The place of a send's datagram, if it was sent.
fn place_of(places: &[Option<usize>], number: usize) -> Option<Source>
    ensures { result ≡ option_map Source.Sent (unwrap_or (slice_get places.now number) None) }
{
    match places.get(number) {
        Some(Some(index)) => Some(Source::Sent(*index)),
        Some(None) => None,
        None => None,
    }
}

// Queues injected datagrams.
fn queue_injected(queue: &mut Vec<Source>, injected: &[(u64, usize)])
    requires { vec_len queue.old + length injected.now ≤ vec_capacity queue.old }
    ensures items { queue.new.items
        ≡ queue.old.items ++ map (λ p. Source.Injected p.1) injected.now }
    ensures capacity { vec_capacity queue.old ≤ vec_capacity queue.new }
    ensures len { vec_len queue.new ≡ vec_len queue.old + length injected.now }
{
    for pair in injected {
        queue_one(queue, Source::Injected(pair.1));
    }
}

// Takes room for so many more places in the queue and then in what is received, and for their entries and others.
fn make_room(
    queue: &mut Vec<Source>,
    received: &mut Vec<Source>,
    log: &mut Vec<Mark>,
    waiting: usize,
    more: usize,
    others: usize,
) -> Result<(), AllocError>
    ensures queue_items { queue.new.items ≡ queue.old.items }
    ensures received_items { received.new.items ≡ received.old.items }
    ensures log_items { log.new.items ≡ log.old.items }
    ensures queue_kept { vec_capacity queue.old ≤ vec_capacity queue.new }
    ensures received_kept { vec_capacity received.old ≤ vec_capacity received.new }
    ensures log_kept { vec_capacity log.old ≤ vec_capacity log.new }
    ensures queue { OnOk result (vec_len queue.new + more ≤ vec_capacity queue.new) }
    ensures received { OnOk result
        (vec_len received.new + (waiting + more) ≤ vec_capacity received.new) }
    ensures log { OnOk result (vec_len log.new + (waiting + more + others) ≤ vec_capacity log.new) }
{
    let places = waiting.saturating_add(more);
    queue.reserve(more)?;
    received.reserve(places)?;
    log.reserve(places.saturating_add(others))
}

// Takes room for one more datagram and its place.
fn make_place(sent: &mut Vec<Vec<u8>>, places: &mut Vec<Option<usize>>) -> Result<(), AllocError>
    ensures sent_items { sent.new.items ≡ sent.old.items }
    ensures places_items { places.new.items ≡ places.old.items }
    ensures sent_len { vec_len sent.new ≡ vec_len sent.old }
    ensures places_len { vec_len places.new ≡ vec_len places.old }
    ensures sent { OnOk result (vec_len sent.new < vec_capacity sent.new) }
    ensures places { OnOk result (vec_len places.new < vec_capacity places.new) }
{
    sent.reserve(1)?;
    places.reserve(1)
}

impl Transit {
    ghost use Rattle.mem_edge.specs.Transits.{injected_in, journal_in, waiting_in, told_in, room_in, comes, IsUnchanged};

    pub fn new(alloc: Global, injected: Vec<(u64, Vec<u8>)>) -> Transit
        requires { All (λ p. vec_len p.1 < 2 ^ 32) injected.items }
        ensures told { told_in result ≡ Some (record { journal = []; waiting = [] }) }
        ensures injected { injected_in result ≡ injections injected.items }
    {
        Transit {
            alloc,
            injected,
            sent: Vec::new(alloc),
            places: Vec::new(alloc),
            queue: Vec::new(alloc),
            next: 0,
            received: Vec::new(alloc),
            first: 0,
            log: Vec::new(alloc),
            tells: true,
        }
    }

    /// How many sends there were since it was emptied, the failed ones included.
    pub fn sends(&self) -> usize
        ensures { result ≡ length (sends_in (journal_in self.now)) }
    {
        self.places.len()
    }

    /// The injected datagrams, with the numbers after which they come.
    pub fn injected(&self) -> &[(u64, Vec<u8>)]
        ensures { injections result.now ≡ injected_in self.now }
    {
        &self.injected
    }

    /// Empties it, with room for so many entries.
    pub fn clear(&mut self, entries: usize) -> Result<(), AllocError>
        ensures empty { OnOk result (Tells (told_in self.old) (told_in self.new) (λ before after.
            after ≡ record { journal = []; waiting = [] })) }
        ensures journal { OnOk result (journal_in self.new ≡ []) }
        ensures tells { OnOk result (told_in self.new ≡ None → told_in self.old ≡ None) }
        ensures room { OnOk result (entries ≤ room_in self.new) }
        ensures injected { injected_in self.new ≡ injected_in self.old }
        ensures refused { OnErr result (IsUnchanged self.old self.new) }
    {
        self.log.reserve(entries)?;
        self.log.clear();
        self.queue.clear();
        self.received.clear();
        self.places.clear();
        self.sent.clear();
        self.next = 0;
        self.first = 0;
        Ok(())
    }

    /// Sends, with room for so many more entries: queues so many copies, then of the held datagrams those that were
    /// sent, then the injected ones.
    pub fn send(
        &mut self,
        datagram: &[u8],
        copies: usize,
        held: &[(u64, usize)],
        injected: &[(u64, usize)],
        entries: usize,
    ) -> Result<(), AllocError>
        requires short { length datagram.now < 2 ^ 32 }
        requires injected { All (λ p. p.1 < length (injected_in self.old)) injected.now }
        ensures told { OnOk result (told_in self.new ≡ told_more (told_in self.old)
            (SentEntry datagram.now ∷ [])
            (comes self.old datagram.now copies held.now injected.now)) }
        ensures journal { OnOk result
            (journal_in self.new ≡ journal_in self.old ++ SentEntry datagram.now ∷ []) }
        ensures room { OnOk result (entries ≤ room_in self.new) }
        ensures injected { injected_in self.new ≡ injected_in self.old }
        ensures refused { OnErr result (IsUnchanged self.old self.new) }
    {
        let copy = Vec::from_slice(self.alloc, datagram)?;
        let waiting = self.queue.len() - self.next;
        let more = held
            .len()
            .saturating_add(injected.len())
            .saturating_add(copies);
        let others = entries.saturating_add(1);
        make_room(
            &mut self.queue,
            &mut self.received,
            &mut self.log,
            waiting,
            more,
            others,
        )?;
        make_place(&mut self.sent, &mut self.places)?;
        let index = self.sent.len();
        keep(&mut self.sent, copy);
        queue_copies(&mut self.queue, Source::Sent(index), copies);
        queue_held(&mut self.queue, &self.places, held);
        queue_injected(&mut self.queue, injected);
        number(&mut self.places, Some(index));
        note(&mut self.log, Answer::Sent { index });
        Ok(())
    }

    /// Writes a send that failed down, with room for so many more entries.
    pub fn fail_send(&mut self, entries: usize) -> Result<(), AllocError>
        ensures told { OnOk result
            (told_in self.new ≡ told_more (told_in self.old) (SendFailed ∷ []) []) }
        ensures journal { OnOk result
            (journal_in self.new ≡ journal_in self.old ++ SendFailed ∷ []) }
        ensures room { OnOk result (entries ≤ room_in self.new) }
        ensures injected { injected_in self.new ≡ injected_in self.old }
        ensures refused { OnErr result (IsUnchanged self.old self.new) }
    {
        let waiting = self.queue.len() - self.next;
        let others = entries.saturating_add(1);
        self.log.reserve(waiting.saturating_add(others))?;
        self.places.reserve(1)?;
        number(&mut self.places, None);
        note(&mut self.log, Answer::SendFailed);
        Ok(())
    }

    /// Writes a receive that failed down.
    pub fn fail_receive(&mut self)
        requires { 0 < room_in self.old }
        ensures told { told_in self.new ≡ told_more (told_in self.old) (ReceiveFailed ∷ []) [] }
        ensures journal { journal_in self.new ≡ journal_in self.old ++ ReceiveFailed ∷ [] }
        ensures room { room_in self.old ≤ room_in self.new + 1 }
        ensures injected { injected_in self.new ≡ injected_in self.old }
    {
        note(&mut self.log, Answer::ReceiveFailed);
    }

    /// Receives what came first, or Nothing.
    pub fn receive(&mut self, into: &mut [u8]) -> Received
        ensures told { Tells (told_in self.old) (told_in self.new) (Receives result into.new) }
        ensures sizes { FitsBuffer result into.new }
        ensures works { result ≡ Received.Failed → ⊥ }
        ensures tells { (before : LinkState)
            → told_in self.old ≡ Some before → told_in self.new ≡ None
            → EndsInNothings before.journal }
        ensures tells_on { result ≢ Received.Nothing
            → told_in self.new ≡ None → told_in self.old ≡ None }
        ensures sends { sends_in (journal_in self.new) ≡ sends_in (journal_in self.old) }
        ensures room { room_in self.old ≤ room_in self.new }
        ensures injected { injected_in self.new ≡ injected_in self.old }
    {
        if self.next == self.queue.len() {
            if !count_nothing(&mut self.first, &mut self.log) {
                self.tells = false;
            }
            return Received::Nothing;
        }
        let place = self.queue[self.next];
        let datagram = datagram(&self.injected, &self.sent, place);
        let len = datagram.len();
        if len > into.len() {
            self.next += 1;
            note(&mut self.log, Answer::Long { place });
            return Received::Long(len as u32);
        }
        into[..len].copy_from_slice(datagram);
        self.next += 1;
        note(&mut self.log, Answer::Got { place });
        queue_one(&mut self.received, place);
        Received::Datagram(len as u32)
    }

    pub fn sent(&self, i: u64) -> Option<&[u8]>
        ensures { MatchOption result
            (slice_get (sent_list (journal_in self.now)) i ≡ None)
            (λ datagram. slice_get (sent_list (journal_in self.now)) i ≡ Some datagram.now) }
    {
        match self.sent.get(i as usize) {
            Some(datagram) => Some(datagram),
            None => None,
        }
    }

    pub fn received(&self, i: u64) -> Option<&[u8]>
        ensures { MatchOption result
            (slice_get (received_list (journal_in self.now)) i ≡ None)
            (λ datagram. slice_get (received_list (journal_in self.now)) i ≡ Some datagram.now) }
    {
        match self.received.get(i as usize) {
            Some(place) => Some(datagram(&self.injected, &self.sent, *place)),
            None => None,
        }
    }
}
