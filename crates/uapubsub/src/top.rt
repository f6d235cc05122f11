//! The whole program over an outside that is passed in.
ghost use Rattle.std.specs.Prelude.{◌≡◌, ◌≢◌, ◌↔◌, ◌≤◌, ℕ, List, Option, Some, None, true, false};
ghost use Rattle.cmd_base.specs.Outside.{outside_of, wire_of};
ghost use Rattle.cmd_base.specs.Statuses.{IsDone, IsUnwritten, number_of, text_of};
ghost use Rattle.cmd_base.specs.Telling.{WritesText};
ghost use Rattle.cmd_base.specs.Links.{IsBeforeLink as IsStatusBeforeLink};
ghost use Rattle.cmd_relay.specs.Ends.{WritesRelay, names_of};
ghost use Rattle.uapubsub.specs.Words.{IsBounded, Shape, Play, Relay, Run, shape_by, shape_of};
ghost use Rattle.uapubsub.specs.Ends.{Does, EndsAs, IsBeforeLink, uses_folder, uses_lab, uses_wire, world_of};
ghost use Rattle.uapubsub.specs.Headline.{WritesPlay, WritesRun};

use crate::words::{Command, command_in};
use cmd_base::{Status, Word, check, play, tell};
use cmd_json::json;
use cmd_keys::keys;
use cmd_lanes::lanes;
use cmd_load::load;
use cmd_relay::relay;
use cmd_run::run;
use std::alloc::Global;
use std::sync::Wait;
use std::thread::Threads;
use ua_base::{Folder, Gate, Link, Sink};

/// Does all that the program does, and answers the status that it ends with. 0: the report or the answer was written. 2:
/// the words have no shape. 3: the configuration was refused. 4: the script was refused. 5: a file could not be read. 6:
/// the report or the answer could not be written. 7: memory ran out. 8: the link could not be opened. 9: a file is too
/// long.
///
/// Memory may run out at any time, and no clause says when. A write to `err` that fails changes no status.
pub fn top<R: Threads + Wait + Sync, F: Folder, A: Link, B: Link, G: Gate, K: Sink, E: Sink>(
    rt: &R,
    alloc: Global,
    words: &[Word],
    folder: &mut F,
    lab: &mut A,
    wire: &mut B,
    gate: &G,
    out: &mut K,
    err: &mut E,
) -> u8
    ensures words { (result ≡ 2) ↔ (shape_of words.now ≡ None) }

    // Each command.
    ensures ends { (shape : Shape) → shape_of words.now ≡ Some shape
        → EndsAs (λ status. Does shape status
        (world_of (outside_of F.tells F.faults K.written K.faults folder.old out.old)
        (wire_of A.told A.patience A.faults A.opened_with A.made A.openings lab.old)
        (wire_of B.told B.patience B.faults B.opened_with B.made B.openings wire.old))
        (world_of (outside_of F.tells F.faults K.written K.faults folder.new out.new)
        (wire_of A.told A.patience A.faults A.opened_with A.made A.openings lab.new)
        (wire_of B.told B.patience B.faults B.opened_with B.made B.openings wire.new)))
        result (E.written err.old) (E.written err.new) (E.faults err.old) (E.faults err.new) }

    // Each data message stands for one whole version. It is one of the history that the script's writes make in the order of its
    // lines, or, where threads make them, of a legal one. Each matched reader that goes by numbers, and whose read group takes
    // nothing but what was sent, holds the version that its messages name, or has said why it waits. A matched one that ignores
    // numbers holds, under the same premise, the row of the last key frame that came since it was cut last.
    ensures played { (script : List ℕ) (config : Option (List ℕ))
        → shape_of words.now ≡ Some (Play script config) → result ≡ 0
        → WritesPlay script config
        (outside_of F.tells F.faults K.written K.faults folder.old out.old)
        (outside_of F.tells F.faults K.written K.faults folder.new out.new)
        (wire_of A.told A.patience A.faults A.opened_with A.made A.openings lab.new) }
    ensures ran { (script : List ℕ) (config : Option (List ℕ))
        → shape_of words.now ≡ Some (Run script config) → result ≡ 0
        → WritesRun script config
        (outside_of F.tells F.faults K.written K.faults folder.old out.old)
        (outside_of F.tells F.faults K.written K.faults folder.new out.new)
        (wire_of B.told B.patience B.faults B.opened_with B.made B.openings wire.new) }

    // Each data frame of a gateway has the number of its source's stores, and the row of that store, whose version is known
    // where the source's read group takes nothing but what was sent. Each matched reader that goes by numbers, and whose read
    // group takes nothing but what was sent, holds the row of the store that is printed, or has said why it waits. Where the
    // source's takes nothing else too, the printed version is known and that of the row, and neither store nor version falls where
    // nothing was cut.
    ensures relayed { (script first second : List ℕ)
        → shape_of words.now ≡ Some (Relay script first second) → result ≡ 0
        → WritesRelay (names_of script first second)
        (outside_of F.tells F.faults K.written K.faults folder.old out.old)
        (outside_of F.tells F.faults K.written K.faults folder.new out.new)
        (wire_of A.told A.patience A.faults A.opened_with A.made A.openings lab.new)
        (wire_of B.told B.patience B.faults B.opened_with B.made B.openings wire.new) }

    // Other words.
    ensures usage { shape_of words.now ≡ None
        → WritesText (E.written err.old) (E.written err.new)
        (E.faults err.old) (E.faults err.new) (text_of Status.BadWords) }
    ensures untouched { result ≡ 2 → folder.new ≡ folder.old }

    // What a command doesn't use, what an answer other than 0 leaves, and what any does.
    ensures folder { (shape : Shape) → shape_of words.now ≡ Some shape
        → uses_folder shape ≡ false → folder.new ≡ folder.old }
    ensures lab { (shape : Shape) → shape_of words.now ≡ Some shape
        → uses_lab shape ≡ false → lab.new ≡ lab.old }
    ensures wire { (shape : Shape) → shape_of words.now ≡ Some shape
        → uses_wire shape ≡ false → wire.new ≡ wire.old }
    ensures unlinked { IsBeforeLink result → (lab.new ≡ lab.old) × (wire.new ≡ wire.old) }
    ensures silent { result ≢ 0 → result ≢ 6 → out.new ≡ out.old }
    ensures files { (name : List ℕ) → F.tells folder.new name ≡ F.tells folder.old name }

    // No count of faults falls.
    ensures folder_faults { F.faults folder.old ≤ F.faults folder.new }
    ensures lab_faults { A.faults lab.old ≤ A.faults lab.new }
    ensures wire_faults { B.faults wire.old ≤ B.faults wire.new }
    ensures out_faults { K.faults out.old ≤ K.faults out.new }
    ensures err_faults { E.faults err.old ≤ E.faults err.new }
{
    let Some(command) = command_in(words) else {
        return told(err, &Status::BadWords);
    };
    let status = act(rt, alloc, &command, folder, lab, wire, gate, out);
    told(err, &status)
}

/// Does what a command does.
fn act<'w, R: Threads + Wait + Sync, F: Folder, A: Link, B: Link, G: Gate, K: Sink>(
    rt: &R,
    alloc: Global,
    command: &Command<'w>,
    folder: &mut F,
    lab: &mut A,
    wire: &mut B,
    gate: &G,
    out: &mut K,
) -> Status<'w>
    requires bounded { IsBounded command.now }
    ensures does { Does (shape_by command.now) result
        (world_of (outside_of F.tells F.faults K.written K.faults folder.old out.old)
        (wire_of A.told A.patience A.faults A.opened_with A.made A.openings lab.old)
        (wire_of B.told B.patience B.faults B.opened_with B.made B.openings wire.old))
        (world_of (outside_of F.tells F.faults K.written K.faults folder.new out.new)
        (wire_of A.told A.patience A.faults A.opened_with A.made A.openings lab.new)
        (wire_of B.told B.patience B.faults B.opened_with B.made B.openings wire.new)) }
    ensures folder { uses_folder (shape_by command.now) ≡ false → folder.new ≡ folder.old }
    ensures lab { uses_lab (shape_by command.now) ≡ false → lab.new ≡ lab.old }
    ensures wire { uses_wire (shape_by command.now) ≡ false → wire.new ≡ wire.old }
    ensures unlinked { IsStatusBeforeLink result → (lab.new ≡ lab.old) × (wire.new ≡ wire.old) }
    ensures silent { ¬ IsDone result → ¬ IsUnwritten result → out.new ≡ out.old }
    ensures files { (name : List ℕ) → F.tells folder.new name ≡ F.tells folder.old name }
    ensures folder_faults { F.faults folder.old ≤ F.faults folder.new }
    ensures lab_faults { A.faults lab.old ≤ A.faults lab.new }
    ensures wire_faults { B.faults wire.old ≤ B.faults wire.new }
    ensures out_faults { K.faults out.old ≤ K.faults out.new }
{
    match command {
        Command::Check { config } => check(alloc, config, folder, out),
        Command::Play { script, config } => play(rt, alloc, script, *config, folder, lab, out),
        Command::Run { script, config } => run(rt, alloc, script, *config, folder, wire, gate, out),
        Command::Load { n } => load(rt, alloc, *n, lab, gate, out),
        Command::Json { script, config } => json(rt, alloc, script, *config, folder, lab, out),
        Command::Keys { config, asked } => keys(alloc, config, asked, folder, out),
        Command::Relay {
            script,
            first,
            second,
        } => relay(rt, alloc, script, first, second, folder, lab, wire, out),
        Command::Lanes { script, config } => {
            lanes(rt, alloc, script, *config, folder, lab, gate, out)
        }
    }
}

/// Writes the text of the status, and answers its number.
fn told<E: Sink>(err: &mut E, status: &Status<'_>) -> u8
    ensures number { result ≡ number_of status.now }
    ensures told { WritesText (E.written err.old) (E.written err.new)
        (E.faults err.old) (E.faults err.new) (text_of status.now) }
    ensures faults { E.faults err.old ≤ E.faults err.new }
{
    tell(err, status);
    status.number()
}
