//! The words that a program is called with.
ghost use Rattle.std.specs.Prelude.{◌<◌, ◌≤◌, ◌^◌, IfOk};

use crate::ending::Fault;
use std::alloc::Global;
use std::env;
use std::net::SocketAddrV4;
use std::rt::Env;

/// The greatest number that a program is given: the turns that a group of writers may have.
const MOST: u64 = 1 << 62;

/// The programs that are called so.
#[derive(Clone, Copy, Debug)]
pub enum Program {
    Publisher,
    Subscriber,
}

impl Program {
    /// The words that the program takes.
    pub fn usage(self) -> &'static str {
        match self {
            Program::Publisher => {
                "CONFIG PEER TICKS: a file's name, an IPv4 address and port as 127.0.0.1:4841, and how often it publishes"
            }
            Program::Subscriber => {
                "CONFIG PEER SECONDS [--live [--keys]]: a file's name, an IPv4 address and port as 127.0.0.1:4842, how long it listens, and a live view, which keys end"
            }
        }
    }
}

/// The words that a program is called with.
#[derive(Drop)]
pub struct Words {
    /// The name of the configuration's file.
    pub config: String,
    /// Where datagrams are sent to.
    pub peer: SocketAddrV4,
    /// How many ticks, or seconds, the program lives.
    pub count: u64,
    /// The words after these.
    pub options: Vec<String>,
}

/// The words after the program's name.
pub fn words_of<R: Env + AllocGlobal>(
    rt: &R,
    alloc: Global,
    program: Program,
) -> Result<Words, Fault>
    ensures { IfOk result (λ words. words.count ≤ 2 ^ 62) }
{
    let Ok(mut args) = env::args(rt) else {
        return Err(Fault::BadWords(program));
    };
    let _ = args.next();
    let (Some(config), Some(peer), Some(count)) = (args.next(), args.next(), args.next()) else {
        return Err(Fault::BadWords(program));
    };
    let (Ok(peer), Ok(count)) = (
        peer.as_str().parse::<SocketAddrV4>(),
        count.as_str().parse::<u64>(),
    ) else {
        return Err(Fault::BadWords(program));
    };
    if count == 0 || count > MOST {
        return Err(Fault::BadWords(program));
    }
    let mut options = Vec::new(alloc);
    for option in args {
        options.push(option)?;
    }
    Ok(Words {
        config,
        peer,
        count,
        options,
    })
}
