//! What a session receives over a link in memory, each law the contract of a function that does nothing.
ghost use Rattle.std.specs.Prelude.{◌≡◌, ◌≤◌, ◌-◌, ◌^◌, ◌++◌, ℕ, List, IsSome};
ghost use Rattle.ua_base.specs.Journal.{Entry};
ghost use Rattle.ua_base.specs.Links.{TellsOn};
ghost use Rattle.mem_edge.specs.declared.memory_link.MemoryLink.{MemoryLink as LinkValue};
ghost use Rattle.mem_edge.specs.Marks.{EndsInNothings};
ghost use Rattle.mem_edge.specs.MemoryLinks.{patience_of, told_by};
ghost use Rattle.mem_edge.specs.Standings.{Settings};
ghost use Rattle.session_model.specs.Counts.{session_nothings};
ghost use Rattle.session_model.specs.Keeping.{AreStepsOf};
ghost use Rattle.session_model.specs.Sends.{IsPump, IsRun, journal};
ghost use Rattle.session_model.specs.Steps.{Plan, Step};
ghost use Rattle.play_laws.specs.Taking.{IsOfItsCalls, MayTakeAll, TakesAll};

/// Over a link in memory none of whose receives fails, a pump takes all that waits, in order, each datagram once, and then finds
/// that nothing is ready. Where fewer wait than a pump takes, none longer than one may be.
pub fn a_pump_takes_all_that_waits()
    ensures { (settings : Settings) (before entries rest : List Entry) (left : ℕ)
        → IsOfItsCalls settings (before ++ entries ++ rest)
        → IsPump left entries → MayTakeAll settings before left
        → TakesAll settings before entries }
{}

/// No beginning of a session's journal ends in 2^64 - 1 answers Nothing, since a session has 2^42 ticks at most beside the
/// closing one, each with one pump at most, which ends with its first such answer. A link in memory that tells its journal tells
/// it until so many stand in a row and one more comes (`tells` of its `receive`); so no receive of a session silences it.
pub fn a_memory_link_tells_of_each_session()
    ensures { (limit : ℕ) (p : Plan) (steps : List Step) (first rest : List Entry) → limit ≤ 2 ^ 42
        → AreStepsOf limit p steps → IsRun p steps
        → journal p steps ≡ first ++ rest → ¬ EndsInNothings first }
{}

/// A link in memory that was made anew and tells (`told`, `patience` of `MemoryLink::new`) tells to the end of a session over it.
/// This is by what `play` and every other command says of its link (`lasts` of `PerformsOver` and of `UsesLink`). It has patience
/// for 2^64 - 1 answers Nothing, and a session of a script is answered so 4,097 times at most.
pub fn a_new_memory_link_tells_to_the_end()
    ensures { (old new : LinkValue) → patience_of old ≡ 2 ^ 64 - 1 → IsSome (told_by old)
        → TellsOn told_by patience_of session_nothings old new → IsSome (told_by new) }
{}
