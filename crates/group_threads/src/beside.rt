//! Lanes on threads of their own, beside a task on this one.
ghost use Rattle.std.specs.Prelude.{◌≡◌, ◌≤◌, IfErr, IfOk, MatchResult};
ghost use denote.Param.Send.{IsSync};
ghost use Rattle.crossbeam_queue.specs.Passes.{IsPassOf};
ghost use Rattle.group_threads.specs.Running.{AreAtEnd, AreAtStart, IsAtStart};

use crate::hand::{Hand, run_lane};
use crate::maker::Maker;
use crate::rule::Queue;
use std::alloc::Global;
use std::snapshot::Snapshot;
use std::sync::Wait;
use std::thread::{self, Promise, Threads, for_each_mut};
use ua_base::Gate;

/// What runs beside the lanes. It is a value of a type parameter, since a scope says nothing of what its closure was lent.
pub(crate) trait Task {
    type Output;

    /// What it was lent.
    type Loan;

    ghost can_run: { Self → Type 0 };

    ghost run_gives: { Self → Self.Output → Type 0 };

    ghost holds: { Self → Self.Loan → Type 0 };

    fn run(self) -> Self::Output
        requires { can_run self }
        ensures { run_gives self result };

    /// Hands back what it was lent, where it can't run.
    fn give_back(self) -> Self::Loan
        ensures { holds self result };
}

/// The promise of the thread that runs the lanes: each ran to its end.
#[derive(Drop)]
struct LanesEnd<'a, W, M> {
    queue: &'a Queue,
    work: &'a W,
    turns: u32,
    hands: Snapshot<Vec<Hand<M>>>,
}

impl<'a, W, M: Maker<W>> Promise<Vec<Hand<M>>> for LanesEnd<'a, W, M> {
    ghost use Rattle.crossbeam_queue.specs.Passes.{IsPassOf};
    ghost use Rattle.group_threads.specs.Running.{AreAtEnd};

    ghost kept_by = { λ p hands. AreAtEnd (IsPassOf p.queue.now) M.made M.turns p.work.now p.turns
        p.hands.value.items hands.items };
}

/// The lanes on threads of their own, and beside them the task on this one. Where no thread can be made nothing runs.
pub(crate) fn run_beside<
    W: Sync,
    M: Maker<W> + Send + Drop,
    G: Gate,
    R: Threads + Wait + Sync,
    T: Task<Output = B, Loan = C> + Drop,
    B,
    C,
>(
    rt: &R,
    alloc: Global,
    queue: &Queue,
    gate: &G,
    work: &W,
    turns: u32,
    hands: Vec<Hand<M>>,
    task: T,
) -> Result<(Vec<Hand<M>>, B), C>
    requires turns { turns ≤ M.turn_count work.now }
    requires start { AreAtStart (IsPassOf queue.now) (M.may_turn work.now 0) hands.items }
    requires can { T.can_run task }
    ensures ran { IfOk result (λ both. AreAtEnd (IsPassOf queue.now) M.made M.turns work.now turns
        hands.items both.0.items) }
    ensures gives { IfOk result (λ both. T.run_gives task both.1) }
    ensures refused { IfErr result (T.holds task) }
{
    thread::scope(
        thread::scope_env(),
        rt,
        move |scope| -> Result<(Vec<Hand<M>>, B), C>
            requires { IsSync R.row × (turns ≤ M.turn_count work.now)
                × AreAtStart (IsPassOf queue.now) (M.may_turn work.now 0) hands.items
                × T.can_run task }
            ensures { MatchResult result (λ both. AreAtEnd (IsPassOf queue.entry.now) M.made M.turns
                work.entry.now turns hands.items both.0.items × T.run_gives task both.1)
                (T.holds task) }
        {
            let end = LanesEnd {
                queue,
                work,
                turns,
                hands: Snapshot::of(&hands),
            };
            let lanes = move || -> Vec<Hand<M>>
                requires { IsSync R.row × (turns ≤ M.turn_count work.now)
                    × AreAtStart (IsPassOf queue.now) (M.may_turn work.now 0) hands.items }
                ensures { AreAtEnd (IsPassOf queue.entry.now) M.made M.turns
                    work.entry.now turns hands.items result.items }
            { run_lanes(rt, alloc, queue, gate, work, turns, hands) };
            match scope.spawn_with(end, lanes) {
                Ok(lanes) => {
                    let given = task.run();
                    Ok((lanes.join(rt), given))
                }
                Err(_) => Err(task.give_back()),
            }
        },
    )
}

/// Each lane on a thread of its own where one can be made, and else one after another.
fn run_lanes<W: Sync, M: Maker<W> + Send, G: Gate, R: Threads + Wait + Sync>(
    rt: &R,
    alloc: Global,
    queue: &Queue,
    gate: &G,
    work: &W,
    turns: u32,
    hands: Vec<Hand<M>>,
) -> Vec<Hand<M>>
    requires turns { turns ≤ M.turn_count work.now }
    requires start { AreAtStart (IsPassOf queue.now) (M.may_turn work.now 0) hands.items }
    ensures { AreAtEnd (IsPassOf queue.now) M.made M.turns work.now turns hands.items result.items }
{
    let mut hands = hands;
    let count = hands.len();
    if count > 0 {
        for_each_mut(
            rt,
            &mut hands,
            count,
            &|_, hand: &mut Hand<M>|
                requires { (turns ≤ M.turn_count work.now)
                    × IsAtStart (IsPassOf queue.now) (M.may_turn work.now 0) hand.old }
            { run_lane(rt, alloc, queue, gate, work, turns, hand) },
        );
    }
    hands
}
