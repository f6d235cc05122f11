//! A crew at work, beside a job.
ghost use Rattle.std.specs.Prelude.{◌≡◌, ℕ, ◌<◌, ◌^◌, length, map, All, IfOk, vec_len};
ghost use denote.Param.Send.{IsSync};
ghost use Rattle.version_cell.specs.Passes.{shared_by};
ghost use Rattle.version_cell.specs.Sets.{ArePassesOf};
ghost use Rattle.app_threads.specs.Duties.{CanRun, IsDone, begun_with};
ghost use Rattle.app_threads.specs.Crews.{AreAtEnd, AreAtStart, AreDone, AreReady, IsAtStart, given_to, list_of};

use crate::crew::Crew;
use crate::done::Done;
use crate::hand::run_list;
use crate::item::Item;
use crate::opening::fresh;
use cell_bank::Bank;
use std::alloc::Global;
use std::sync::Wait;
use std::thread::{Threads, for_each_mut, join_mut};
use target_cells::Targets;
use ua_base::{Gate, NoMemory};
use version_cell::Passes;

impl Crew {
    /// List t is that of thread t, which has the set t of the passes, and passes of its own that are split from `looks`. No later
    /// call takes memory.
    pub fn new(
        alloc: Global,
        hands: Vec<Passes>,
        targets: &Targets,
        looks: &mut Passes,
        lists: Vec<Vec<Item>>,
    ) -> Result<Crew, NoMemory>
        requires count { length hands.items ≡ length lists.items }
        requires few { length lists.items < 2 ^ 32 }
        requires short { All (λ list. vec_len list < 2 ^ 32) lists.items }
        requires looks { ArePassesOf targets.now.cells looks.old }
        ensures same { looks.new ≡ looks.old }
        ensures duties { IfOk result
            (λ crew. crew ≡ given_to lists.items hands.items (map shared_by looks.old)) }
    {
        let mut dones = Vec::new(alloc);
        let mut t = 0;
        for passes in hands {
            let watches = targets.split(alloc, looks)?;
            let list = &lists[t];
            let done = fresh(alloc, t as u32, list, passes, watches)?;
            dones.push(done)?;
            t += 1;
        }
        Ok(Crew { lists, dones })
    }

    /// Runs each list on a thread of its own, and beside them the job, once, on this thread. The gate is called before and after
    /// each item. Where no thread can be made, lists and job run one after another, with the same promise.
    pub fn run<R: Threads + Wait + Sync, G: Gate, T, J: FnMut() -> T>(
        self,
        rt: &R,
        bank: &Bank,
        targets: &Targets,
        gate: &G,
        job: &mut J,
    ) -> (Vec<Done>, T)
        requires ready { AreReady bank.now targets.now.cells self }
        requires job { J.pre job.old }
        ensures done { AreDone bank.now targets.now.cells self result.0.items }
        ensures job { J.step job.old result.1 job.new }
    {
        let Crew { lists, mut dones } = self;
        let out = run_beside(rt, bank, targets, gate, &lists, &mut dones, job);
        (dones, out)
    }
}

// The lists on threads of their own, and beside them the job on this one.
fn run_beside<R: Threads + Wait + Sync, G: Gate, T, J: FnMut() -> T>(
    rt: &R,
    bank: &Bank,
    targets: &Targets,
    gate: &G,
    lists: &[Vec<Item>],
    dones: &mut [Done],
    job: &mut J,
) -> T
    requires start { AreAtStart bank.now targets.now.cells lists.now dones.old }
    requires job { J.pre job.old }
    ensures count { length dones.new ≡ length dones.old }
    ensures done { AreAtEnd bank.now targets.now.cells lists.now dones.old dones.new }
    ensures job { J.step job.old result job.new }
{
    let (_, out) = join_mut(
        rt,
        &mut || -> ()
            requires { IsSync R.row × AreAtStart bank.now targets.now.cells lists.now dones.now }
            ensures { AreAtEnd bank.entry.now targets.entry.now.cells
                lists.entry.now dones.entry.now dones.exit.now }
        { run_all(rt, bank, targets, gate, lists, dones) },
        job,
    );
    out
}

fn run_all<R: Threads + Wait + Sync, G: Gate>(
    rt: &R,
    bank: &Bank,
    targets: &Targets,
    gate: &G,
    lists: &[Vec<Item>],
    dones: &mut [Done],
)
    requires { AreAtStart bank.now targets.now.cells lists.now dones.old }
    ensures { AreAtEnd bank.now targets.now.cells lists.now dones.old dones.new }
{
    let count = dones.len();
    if count > 0 {
        for_each_mut(
            rt,
            dones,
            count,
            &|t: usize, done: &mut Done|
                requires { (t < length lists.now)
                    × IsAtStart bank.now targets.now.cells t (list_of lists.now t) done.old }
            { run_nth(rt, bank, targets, gate, lists, t, done) },
        );
    }
}

fn run_nth<R: Wait, G: Gate>(
    rt: &R,
    bank: &Bank,
    targets: &Targets,
    gate: &G,
    lists: &[Vec<Item>],
    t: usize,
    done: &mut Done,
)
    requires at { t < length lists.now }
    requires start { IsAtStart bank.now targets.now.cells t (list_of lists.now t) done.old }
    ensures { IsDone bank.now targets.now.cells t
        (begun_with (list_of lists.now t) done.old) done.new }
{
    run_list(rt, bank, targets, gate, &lists[t], done);
}
