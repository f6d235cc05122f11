//! A law of generated work, the contract of a function that does nothing.
ghost use Rattle.std.specs.Prelude.{◌≡◌, ◌*◌, ◌≤◌, ℕ, List, length};
ghost use Rattle.pubsub_model.specs.History.{IsLegal, row_of};
ghost use Rattle.ps_script.specs.Generated.{generated};
ghost use Rattle.ps_script.specs.Sessions.{ticks_in};
ghost use Rattle.script_runner.specs.Legal.{fields_in, history_by, writes_to};
ghost use Rattle.cmd_load.specs.Newest.{newest_row};

/// Generated work has `4n` ticks; and whatever order its threads write in, their history has `32n` versions, and the last of them
/// has the row of each thread's last write, for n from 1 to 1,024.
pub fn generated_work_ends_with_one_row()
    ensures ticks { (n : ℕ) → ticks_in (generated n).lines ≡ 4 * n }
    ensures versions { (n : ℕ) (threads : List ℕ) → n ≤ 1024
        → IsLegal threads (writes_to (generated n) 0)
        → length threads ≡ 32 * n }
    ensures newest { (n : ℕ) (threads : List ℕ) → 1 ≤ n → n ≤ 1024
        → IsLegal threads (writes_to (generated n) 0)
        → row_of (fields_in (generated n) 0) (history_by (generated n) 0 threads) (32 * n)
        ≡ newest_row n }
{}
