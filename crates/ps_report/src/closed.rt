//! What a session was when it closed. Counts stand still at their type's end.
use arrayvec::ArrayVec;
use ps_config::Parts;
use pubsub_model::{Break, Why};
use pubsub_states::State;
use row_words::Row;

/// A closed session: an entry for each data set, group and read group of its configuration, in order, and for each writer and
/// reader, counted over all groups.
#[derive(Drop)]
pub struct Closed {
    pub histories: Parts<History>,
    pub groups: Parts<GroupEnd>,
    pub writers: Parts<WriterEnd>,
    pub read_groups: Parts<ReadGroupEnd>,
    pub readers: Parts<ReaderEnd>,
    /// In the order of threads and then of the script's lines.
    pub watches: Parts<WatchEnd>,
    pub link: LinkEnd,
}

/// The history of a data set.
#[derive(Drop)]
pub struct History {
    /// The thread that made each version, from 1 on.
    pub threads: Parts<u8>,
}

/// A group of writers, and its datagrams whose send was done.
#[derive(Clone, Copy, Debug, PartialEq, Eq)]
pub struct GroupEnd {
    pub state: State,
    pub sent: u64,
}

/// A writer, with place and version of each of its data frames.
#[derive(Drop)]
pub struct WriterEnd {
    pub state: State,
    pub log: Parts<(u64, u64)>,
}

/// A read group, the datagrams that it took, and for each cause those that it refused, in the order of a report.
#[derive(Clone, Copy, Debug, PartialEq, Eq)]
pub struct ReadGroupEnd {
    pub state: State,
    pub taken: u64,
    pub causes: [u64; 20],
}

/// A reader: what it holds or else why it waits, and its breaks, of which the last eight are kept, the latest last.
#[derive(Drop)]
pub struct ReaderEnd {
    pub state: State,
    pub held: Option<HeldEnd>,
    pub why: Why,
    pub breaks: u64,
    pub recent: ArrayVec<Break, 8>,
}

/// A row that a reader holds, the number of the message that it was last made of, and the version that the writer's log has
/// at that number.
#[derive(Clone, Copy, Debug, PartialEq, Eq)]
pub struct HeldEnd {
    pub number: Option<u16>,
    pub version: Option<u64>,
    pub row: Row,
}

/// The looks of one watch line: the thread that looked, the reader's index, and its store count at each look.
#[derive(Drop)]
pub struct WatchEnd {
    pub thread: u8,
    pub reader: u8,
    pub counts: Parts<u64>,
}

/// Sends done and failed, datagrams received, receives failed, datagrams too long, and pumps that ended at their limit.
#[derive(Clone, Copy, Debug, PartialEq, Eq)]
pub struct LinkEnd {
    pub sent: u64,
    pub failed: u64,
    pub received: u64,
    pub broken: u64,
    pub long: u64,
    pub limit: u64,
}
