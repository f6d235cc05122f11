//! What each thread of a script has to do.
ghost use Rattle.std.specs.Prelude.{◌≡◌, ◌<◌, ◌∷◌, [], ℕ, IfOk, MatchOption, length};
ghost use Rattle.app_threads.specs.Crews.{list_of};
ghost use Rattle.script_runner.specs.Lists.{item_by, items_by};

use app_threads::Item;
use ps_script::{Act, Script};
use std::alloc::Global;
use ua_base::NoMemory;

/// The writes and watches of each of the eight threads, in the order of the lines.
pub(crate) fn lists_of(alloc: Global, script: &Script) -> Result<Vec<Vec<Item>>, NoMemory>
    ensures eight { IfOk result (λ lists. length lists.items ≡ 8) }
    ensures lists { IfOk result (λ lists. (thread : ℕ) → thread < 8
        → list_of lists.items thread ≡ items_by thread script.now.lines) }
{
    let mut lists = Vec::with_capacity(alloc, 8)?;
    for thread in 0..8 {
        lists.push(list_of(alloc, script, thread)?)?;
    }
    Ok(lists)
}

/// The writes and watches of a thread, in the order of the lines.
fn list_of(alloc: Global, script: &Script, thread: u8) -> Result<Vec<Item>, NoMemory>
    ensures list { IfOk result (λ list. list.items ≡ items_by thread script.now.lines) }
{
    let mut list = Vec::new(alloc);
    for line in script.lines.as_slice() {
        if let Some(item) = item_of(&line.act, thread) {
            list.push(item)?;
        }
    }
    Ok(list)
}

/// What a line has for a thread.
fn item_of(act: &Act, thread: u8) -> Option<Item>
    ensures { MatchOption result (item_by thread act.now ≡ [])
        (λ item. item_by thread act.now ≡ item ∷ []) }
{
    match act {
        Act::Write {
            thread: writer,
            set,
            patch,
        } if *writer == thread => Some(Item::Write {
            set: *set,
            patch: *patch,
        }),
        Act::Watch {
            thread: watcher,
            reader,
            times,
        } if *watcher == thread => Some(Item::Watch {
            reader: *reader,
            times: *times,
        }),
        _ => None,
    }
}
