//! The words that the program is called with.
ghost use Rattle.std.specs.Prelude.{◌≤◌, ◌^◌, IfOk};

use crate::fault::Fault;
use std::env;
use std::rt::Env;

/// The most turns that a group of writers may have.
const MOST: u64 = 1 << 62;

/// The words that the program is called with.
#[derive(Clone, Copy)]
pub struct Words {
    /// How many turns there are.
    pub turns: u64,
    /// Whether it tells what the process uses.
    pub figures: bool,
}

/// The words after the program's name: how many turns, and `figures` where it tells what the process uses.
pub fn words_of<R: Env + AllocGlobal>(rt: &R) -> Result<Words, Fault>
    ensures { IfOk result (λ words. words.turns ≤ 2 ^ 62) }
{
    let Ok(mut args) = env::args(rt) else {
        return Err(Fault::BadWords);
    };
    let _ = args.next();
    let Some(turns) = args.next() else {
        return Err(Fault::BadWords);
    };
    let Ok(turns) = turns.as_str().parse::<u64>() else {
        return Err(Fault::BadWords);
    };
    if turns > MOST {
        return Err(Fault::BadWords);
    }
    match args.next() {
        None => Ok(Words {
            turns,
            figures: false,
        }),
        Some(word) if word.as_str() == "figures" => Ok(Words {
            turns,
            figures: true,
        }),
        Some(_) => Err(Fault::BadWords),
    }
}
