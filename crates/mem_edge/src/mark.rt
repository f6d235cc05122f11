//! The journal of a link in memory, as it is kept: places in the lists of what was sent and injected, and counts of
//! Nothing.
ghost use Rattle.std.specs.Prelude.{◌≡◌, ◌≤◌, ◌<◌, ◌+◌, ◌++◌, ◌∷◌, [], ℕ, List, vec_len, vec_capacity};
ghost use Rattle.std.specs.Bool.{OnTrue, OnFalse};
ghost use Rattle.std.specs.List.{All};
ghost use Rattle.ua_base.specs.Journal.{Empty};
ghost use Rattle.mem_edge.specs.Marks.{entries, entry_of, EndsInNothings, IsMarkWithin};
ghost use Rattle.mem_edge.specs.declared.mark.Source.{Source as PlaceValue};

/// Where a datagram is kept: its index among those that were sent, or among the injected ones.
#[derive(Clone, Copy)]
pub enum Source {
    Sent(usize),
    Injected(usize),
}

/// An answer other than Nothing, with the place of its datagram.
#[derive(Clone, Copy)]
pub enum Answer {
    Sent { index: usize },
    SendFailed,
    Got { place: Source },
    Long { place: Source },
    ReceiveFailed,
}

/// An answer, and how many answers Nothing came right after it.
#[derive(Clone, Copy)]
pub struct Mark {
    pub answer: Answer,
    pub nothings: u64,
}

/// Writes down an answer, for which the room is there.
pub(crate) fn note(log: &mut Vec<Mark>, answer: Answer)
    requires { vec_len log.old < vec_capacity log.old }
    ensures items { log.new.items ≡ log.old.items ++ record { answer = answer; nothings = 0 } ∷ [] }
    ensures entry { (shown : PlaceValue → List ℕ) (first : ℕ) →
        entries shown first log.new.items
        ≡ entries shown first log.old.items ++ entry_of shown answer ∷ [] }
    ensures len { vec_len log.new ≡ vec_len log.old + 1 }
    ensures capacity { vec_capacity log.old ≤ vec_capacity log.new }
{
    match log.push(Mark {
        answer,
        nothings: 0,
    }) {
        Ok(()) => {}
        Err(_) => unreachable!(),
    }
}

/// Counts an answer Nothing, unless the count stands at its last value.
pub(crate) fn count_nothing(first: &mut u64, log: &mut [Mark]) -> bool
    ensures counted { OnTrue result ((shown : PlaceValue → List ℕ) →
        entries shown first.new log.new ≡ entries shown first.old log.old ++ Empty ∷ []) }
    ensures full { OnFalse result ((shown : PlaceValue → List ℕ) →
        EndsInNothings (entries shown first.old log.old)) }
    ensures left { OnFalse result ((first.new ≡ first.old) × (log.new ≡ log.old)) }
    ensures within { (injected sent : ℕ) →
        All (IsMarkWithin injected sent) log.old → All (IsMarkWithin injected sent) log.new }
{
    let count = log.len();
    if count == 0 {
        if *first == u64::MAX {
            return false;
        }
        *first += 1;
        return true;
    }
    let mark = log[count - 1];
    if mark.nothings == u64::MAX {
        return false;
    }
    log[count - 1] = Mark {
        answer: mark.answer,
        nothings: mark.nothings + 1,
    };
    true
}
