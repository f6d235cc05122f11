//! A link in memory: what is sent waits, and is received in the order that fates and injected datagrams make.
ghost use Rattle.std.specs.Prelude.{◌≡◌, ◌≢◌, ◌≤◌, ◌<◌, ◌-◌, ◌^◌, ◌↔◌, ℕ, [], true, false, IsTrue, IsSome, length, vec_len, Some, None, OnOk, OnErr, MatchOption, slice_get};
ghost use Rattle.std.specs.List.{All};
ghost use Rattle.ua_base.specs.Cause.{HasCause, Rose, counted_if};
ghost use Rattle.ua_base.specs.Fates.{AreFates};
ghost use Rattle.ua_base.specs.Journal.{LinkState, Tells, sent_list, received_list};
ghost use Rattle.ua_base.specs.Links.{KeepsLink, TellsOn};
ghost use Rattle.ua_base.specs.Net.{Opens, is_done, Sends, Queues, Receives, FitsBuffer, nothings_in};
ghost use Rattle.mem_edge.specs.Calls.{named_from};
ghost use Rattle.mem_edge.specs.Contents.{injections};
ghost use Rattle.mem_edge.specs.Failings.{ahead_in, IsAhead};
ghost use Rattle.mem_edge.specs.Transits.{room_in, injected_in, journal_in, told_in};
ghost use Rattle.mem_edge.specs.Marks.{EndsInNothings};
ghost use Rattle.mem_edge.specs.Plans.{IsPlan, IsOnce};
ghost use Rattle.mem_edge.specs.Sends.{sends_in};
ghost use Rattle.mem_edge.specs.Standings.{settings_with, TellsFated, TellsFated-prop};

use crate::failing::Failing;
use crate::plan::Plan;
use crate::transit::Transit;
use std::alloc::{AllocError, Global};
use ua_base::{Fate, Link, Opened, Received, Sent};

/// A link in memory, and the calls that fail: the numbers of sends and of receives, counted from 0
/// since the link was opened, and whether each opening fails.
///
/// A send takes memory, and a receive takes none, as facts of the type keep and no clause says: its entry's room is
/// taken by the send that queues its datagram, or by the opening for the receives that fail. A send that runs out of
/// memory leaves the link as it was, and so its number is that of the next send.
///
/// It tells its journal until 2^64 - 1 answers Nothing stand in a row and one more comes.
#[derive(Drop)]
pub struct MemoryLink {
    alloc: Global,
    transit: Transit,
    send_fails: Vec<u64>,
    receive_fails: Vec<u64>,
    open_fails: bool,
    port: u16,
    fates: Vec<(u64, Fate)>,
    plan: Plan,
    // Of the failing calls those that are still to come, of an open link.
    failing_sends: Failing,
    failing_receives: Failing,
    // The number of the next receive, of 128 bits so that no number of a list comes twice.
    receives: u128,
    faults: u64,
    openings: u64,
    is_open: bool,
    ghost room: { IsTrue is_open → named_from receives receive_fails.items ≤ room_in transit },
    ghost planned: { IsTrue is_open → IsPlan fates.items (injected_in transit) plan },
    ghost once: { IsOnce fates.items },
    ghost sends_ahead: { IsTrue is_open → IsAhead send_fails.items
        (length (sends_in (journal_in transit))) (ahead_in failing_sends) },
    ghost receives_ahead: { IsTrue is_open → IsAhead receive_fails.items receives
        (ahead_in failing_receives) },
    ghost fated: { IsTrue is_open → TellsFated (settings_with (injected_in transit) send_fails.items
        receive_fails.items open_fails fates.items) receives (told_in transit) } by { TellsFated-prop is_open (settings_with (injected_in transit) send_fails.items
            receive_fails.items open_fails fates.items) receives (told_in transit) },
}

impl MemoryLink {
    ghost use Rattle.mem_edge.specs.MemoryLinks.{told_by, journal_of, patience_of, faults_of, opened_by, made_by, openings_of, receives_made};

    /// An injected datagram comes after all that the send of its number queues; of two with one number the first of
    /// the list comes first. Each is shorter than 2^32 bytes, since an answer counts its bytes in a u32.
    pub fn new(
        alloc: Global,
        injected: Vec<(u64, Vec<u8>)>,
        send_fails: Vec<u64>,
        receive_fails: Vec<u64>,
        open_fails: bool,
    ) -> MemoryLink
        requires { All (λ p. vec_len p.1 < 2 ^ 32) injected.items }
        ensures told { told_by result ≡ Some (record { journal = []; waiting = [] }) }
        ensures patience { patience_of result ≡ 2 ^ 64 - 1 }
        ensures made { made_by result ≡ record {
          injected = injections injected.items;
          send_fails = send_fails.items;
          receive_fails = receive_fails.items;
          open_fails = open_fails;
        } }
        ensures openings { openings_of result ≡ 0 }
        ensures receives { receives_made result ≡ 0 }
        ensures faults { faults_of result ≡ 0 }
        ensures closed { opened_by result ≡ None }
    {
        MemoryLink {
            alloc,
            transit: Transit::new(alloc, injected),
            send_fails,
            receive_fails,
            open_fails,
            port: 0,
            fates: Vec::new(alloc),
            plan: Plan::empty(alloc),
            failing_sends: Failing::none(alloc),
            failing_receives: Failing::none(alloc),
            receives: 0,
            faults: 0,
            openings: 0,
            is_open: false,
        }
    }

    /// The i-th datagram that was sent since the opening, from 0.
    pub fn sent(&self, i: u64) -> Option<&[u8]>
        ensures datagram { MatchOption result
            (slice_get (sent_list (journal_of self.now)) i ≡ None)
            (λ datagram. slice_get (sent_list (journal_of self.now)) i ≡ Some datagram.now) }
        ensures journal { (state : LinkState)
            → told_by self.now ≡ Some state → state.journal ≡ journal_of self.now }
    {
        self.transit.sent(i)
    }

    /// The i-th datagram that was received since the opening, from 0.
    pub fn received(&self, i: u64) -> Option<&[u8]>
        ensures datagram { MatchOption result
            (slice_get (received_list (journal_of self.now)) i ≡ None)
            (λ datagram. slice_get (received_list (journal_of self.now)) i ≡ Some datagram.now) }
        ensures journal { (state : LinkState)
            → told_by self.now ≡ Some state → state.journal ≡ journal_of self.now }
    {
        self.transit.received(i)
    }

    // Opens it anew: sorts the fates, the injected datagrams and the failing calls, empties the transit and takes room for
    // the receives that fail.
    fn reopen(&mut self, port: u16, fates: &[(u64, Fate)]) -> Result<(), AllocError>
        requires { IsOnce fates.now }
        ensures empty { OnOk result (Tells (told_by self.old) (told_by self.new) (λ before after.
            after ≡ record { journal = []; waiting = [] })) }
        ensures opening { OnOk result
            (opened_by self.new ≡ Some (record { port = port; fates = fates.now })) }
        ensures tells { OnOk result (told_by self.new ≡ None → told_by self.old ≡ None) }
        ensures done { OnOk result ((journal_of self.new ≡ []) × (receives_made self.new ≡ 0)) }
        ensures refused { OnErr result
            ((told_by self.new ≡ told_by self.old) × (opened_by self.new ≡ opened_by self.old)) }
        ensures stays { OnErr result ((journal_of self.new ≡ journal_of self.old)
            × (receives_made self.new ≡ receives_made self.old)) }
        ensures faults { faults_of self.new ≡ faults_of self.old }
        ensures making { made_by self.new ≡ made_by self.old }
        ensures openings { openings_of self.new ≡ openings_of self.old }
    {
        let plan = Plan::new(self.alloc, fates, self.transit.injected())?;
        let given = Vec::from_slice(self.alloc, fates)?;
        let failing_sends = Failing::new(self.alloc, &self.send_fails)?;
        let failing_receives = Failing::new(self.alloc, &self.receive_fails)?;
        let failing = self.receive_fails.len();
        self.transit.clear(failing)?;
        self.plan = plan;
        self.failing_sends = failing_sends;
        self.failing_receives = failing_receives;
        self.fates = given;
        self.port = port;
        self.receives = 0;
        self.is_open = true;
        Ok(())
    }
}

impl Link for MemoryLink {
    ghost use Rattle.mem_edge.specs.MemoryLinks.{told_by, journal_of, patience_of, faults_of, opened_by, made_by, openings_of, fails_opening, fails_receiving, receives_made, is_failed};
    ghost use Rattle.mem_edge.specs.Runs.{AnswersSend, AnswersReceive};

    ghost takes_memory = { true };

    ghost told = { λ m. told_by m };

    ghost patience = { λ m. patience_of m };

    ghost faults = { λ m. faults_of m };

    ghost opened_with = { λ m. opened_by m };

    ghost made = { λ m. made_by m };

    ghost openings = { λ m. openings_of m };

    /// The numbers of sends and of receives begin anew.
    fn open(&mut self, port: u16, fates: &[(u64, Fate)]) -> Opened
        requires fates { AreFates fates.now }

        ensures empty { Tells (told_by self.old) (told_by self.new) (Opens result) }
        ensures opening { result ≡ Opened.Done
            → opened_by self.new ≡ Some (record { port = port; fates = fates.now }) }
        ensures refused { result ≢ Opened.Done
            → (told_by self.new ≡ told_by self.old) × (opened_by self.new ≡ opened_by self.old) }
        ensures cause { HasCause
            (faults_of self.old) (faults_of self.new) (result ≡ Opened.Failed) }
        ensures lasts { TellsOn told_by patience_of 0 self.old self.new }
        ensures making { made_by self.new ≡ made_by self.old }
        ensures counted { openings_of self.new
            ≡ counted_if (is_done result) (openings_of self.old) }

        ensures failed { (result ≡ Opened.Failed) ↔ IsTrue (fails_opening self.old) }
        ensures faults { faults_of self.new
            ≡ counted_if (fails_opening self.old) (faults_of self.old) }
        ensures tells { told_by self.new ≡ None → told_by self.old ≡ None }
        ensures done { result ≡ Opened.Done
            → (journal_of self.new ≡ []) × (receives_made self.new ≡ 0) }
        ensures stays { result ≢ Opened.Done → (journal_of self.new ≡ journal_of self.old)
            × (receives_made self.new ≡ receives_made self.old) }
    {
        if self.open_fails {
            self.faults = self.faults.saturating_add(1);
            return Opened::Failed;
        }
        match self.reopen(port, fates) {
            Ok(()) => {
                self.openings = self.openings.saturating_add(1);
                Opened::Done
            }
            Err(_) => Opened::Memory,
        }
    }

    /// A datagram that is sent queues its copies, then those that wait for it, then those injected after it.
    fn send(&mut self, datagram: &[u8]) -> Sent
        requires open { IsSome (opened_by self.old) }
        requires short { length datagram.now < 2 ^ 32 }

        ensures entry { Tells (told_by self.old) (told_by self.new) (Sends datagram.now result) }
        ensures waiting { Tells (told_by self.old) (told_by self.new) (Queues result) }
        ensures link { KeepsLink told_by patience_of opened_by faults_of made_by openings_of
            0 self.old self.new }
        ensures only_where_taken { result ≡ Sent.Memory → IsTrue true }
        ensures cause { result ≡ Sent.Failed → Rose (faults_of self.old) (faults_of self.new) }

        ensures answers { AnswersSend datagram.now result self.old self.new }
        ensures faults { faults_of self.new ≡ counted_if (is_failed result) (faults_of self.old) }
    {
        let failing = self.receive_fails.len();
        let number = self.transit.sends() as u64;
        if self.failing_sends.names(number as u128) {
            match self.transit.fail_send(failing) {
                Ok(()) => {}
                Err(_) => return Sent::Memory,
            }
            self.failing_sends.pass(number as u128);
            self.faults = self.faults.saturating_add(1);
            return Sent::Failed;
        }
        let copies = self.plan.copies(number);
        let held = self.plan.held.at(number);
        let injected = self.plan.injected.at(number);
        match self.transit.send(datagram, copies, held, injected, failing) {
            Ok(()) => {
                self.failing_sends.pass(number as u128);
                Sent::Done
            }
            Err(_) => Sent::Memory,
        }
    }

    /// A datagram longer than `into` is taken and dropped.
    fn receive(&mut self, into: &mut [u8]) -> Received
        requires { IsSome (opened_by self.old) }

        ensures entry { Tells (told_by self.old) (told_by self.new) (Receives result into.new) }
        ensures sizes { FitsBuffer result into.new }
        ensures link { KeepsLink told_by patience_of opened_by faults_of made_by openings_of
            (nothings_in result) self.old self.new }
        ensures cause { result ≡ Received.Failed → Rose (faults_of self.old) (faults_of self.new) }

        ensures answers { AnswersReceive result into.new self.old self.new }
        ensures faults { faults_of self.new
            ≡ counted_if (fails_receiving self.old) (faults_of self.old) }
        ensures tells { (before : LinkState)
            → told_by self.old ≡ Some before → told_by self.new ≡ None
            → EndsInNothings before.journal }
        ensures sends { sends_in (journal_of self.new) ≡ sends_in (journal_of self.old) }
    {
        let named = self.failing_receives.names(self.receives);
        self.failing_receives.pass(self.receives);
        self.receives = self.receives.saturating_add(1);
        if named {
            self.faults = self.faults.saturating_add(1);
            self.transit.fail_receive();
            return Received::Failed;
        }
        self.transit.receive(into)
    }
}
