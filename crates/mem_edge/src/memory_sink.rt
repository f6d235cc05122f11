//! Bytes written to memory.
ghost use Rattle.std.specs.Prelude.{◌≡◌, ◌≤◌, ◌↔◌, ◌++◌, [], Some, true, IsTrue, IfOk, length, vec_len, vec_capacity};
ghost use Rattle.ua_base.specs.Cause.{HasCause, counted_if};
ghost use Rattle.ua_base.specs.Output.{WriteGives};
ghost use Rattle.mem_edge.specs.declared.memory_sink.TheConstants.{SINK_ROOM};

use crate::calls::names;
use std::alloc::Global;
use ua_base::{NoMemory, Sink, WriteEnd};

/// How many bytes a sink in memory holds: 4 MiB.
const SINK_ROOM: usize = 4_194_304;

/// Bytes in memory, and the numbers of the writes that fail, counted from 0 over all writes to the sink.
/// Its memory is taken when it is made.
#[derive(Drop)]
pub struct MemorySink {
    bytes: Vec<u8>,
    fails: Vec<u32>,
    writes: u64,
    faults: u64,
    ghost room: { SINK_ROOM ≤ vec_capacity bytes },
    ghost within: { vec_len bytes ≤ SINK_ROOM },
}

impl MemorySink {
    ghost use Rattle.mem_edge.specs.MemorySinks.{written_by, named_writes, writes_made, faults_of, fails_writing};

    pub fn new(alloc: Global, fails: Vec<u32>) -> Result<MemorySink, NoMemory>
        ensures empty { IfOk result (λ sink. written_by sink ≡ []) }
        ensures named { IfOk result (λ sink. named_writes sink ≡ fails.items) }
        ensures writes { IfOk result (λ sink. writes_made sink ≡ 0) }
        ensures faults { IfOk result (λ sink. faults_of sink ≡ 0) }
    {
        Ok(MemorySink {
            bytes: Vec::with_capacity(alloc, SINK_ROOM)?,
            fails,
            writes: 0,
            faults: 0,
        })
    }

    /// All that was written.
    pub fn bytes(&self) -> &[u8]
        ensures { result.now ≡ written_by self.now }
    {
        &self.bytes
    }

    fn fails_at(&self, bytes: &[u8]) -> bool
        ensures { result ≡ fails_writing self.now bytes.now }
    {
        names(&self.fails, self.writes) || SINK_ROOM < self.bytes.len() + bytes.len()
    }
}

impl Sink for MemorySink {
    ghost use Rattle.mem_edge.specs.MemorySinks.{written_by, named_writes, writes_made, faults_of, fails_writing};

    ghost written = { λ s. Some (written_by s) };

    ghost faults = { λ s. faults_of s };

    /// A write that fails leaves the bytes as they were.
    fn write(&mut self, bytes: &[u8]) -> WriteEnd
        ensures gives { WriteGives result
            (Some (written_by self.old)) (Some (written_by self.new)) bytes.now }
        ensures cause { HasCause
            (faults_of self.old) (faults_of self.new) (result ≡ WriteEnd.Failed) }

        ensures failed { (result ≡ WriteEnd.Failed) ↔ IsTrue (fails_writing self.old bytes.now) }
        ensures unwritten { result ≡ WriteEnd.Failed → written_by self.new ≡ written_by self.old }
        ensures faults { faults_of self.new
            ≡ counted_if (fails_writing self.old bytes.now) (faults_of self.old) }
        ensures writes { writes_made self.new ≡ counted_if true (writes_made self.old) }
        ensures named { named_writes self.new ≡ named_writes self.old }
    {
        let fails = self.fails_at(bytes);
        self.writes = self.writes.saturating_add(1);
        if fails {
            self.faults = self.faults.saturating_add(1);
            return WriteEnd::Failed;
        }
        match self.bytes.extend_from_slice(bytes) {
            Ok(()) => WriteEnd::Done,
            Err(_) => unreachable!(),
        }
    }
}
