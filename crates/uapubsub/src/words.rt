//! The words of the command line.
ghost use Rattle.std.specs.Prelude.{◌≡◌, IfSome, option_copied, option_map};
ghost use Rattle.uapubsub.specs.Words.{IsBounded, check_shape, long_shape, named_shape, relay_shape, script_shape, shape_by, shape_of, short_shape};

use cmd_base::{Word, names_file};
use cmd_keys::{Asked, keys_in};
use cmd_load::load_number;

/// What the words ask for.
#[derive(Clone, Copy)]
pub enum Command<'w> {
    /// To judge the configuration in this file.
    Check {
        config: &'w str,
    },
    /// To play the script in this file over a link in memory, with the configuration in that file or the built-in one.
    Play {
        script: &'w str,
        config: Option<&'w str>,
    },
    /// To run the script in this file with threads over a network, with the configuration in that file or the built-in one.
    Run {
        script: &'w str,
        config: Option<&'w str>,
    },
    /// To run so much generated work, 1 to 1024, with threads over a link in memory.
    Load {
        n: u32,
    },
    /// To play the script in this file and write its messages in the JSON mapping, with the configuration in that file or the
    /// built-in one.
    Json {
        script: &'w str,
        config: Option<&'w str>,
    },
    /// To ask a key group of the configuration in this file for keys.
    Keys {
        config: &'w str,
        asked: Asked,
    },
    /// To play the script in this file with the first configuration, and to publish what its readers hold by the second one.
    Relay {
        script: &'w str,
        first: &'w str,
        second: &'w str,
    },
    /// To run the writer groups of the configuration in that file or the built-in one on threads, for the writes and ticks of the
    /// script in this file.
    Lanes {
        script: &'w str,
        config: Option<&'w str>,
    },
}

/// What the words ask for: `check --config FILE`; `play`, `run`, `json` or `lanes` with `SCRIPT` or `SCRIPT --config FILE`;
/// `load N`; `keys FILE GROUP START COUNT MS`; `relay SCRIPT FILE SECOND`. No other words ask for anything.
pub fn command_in(words: &[Word]) -> Option<Command<'_>>
    ensures shape { shape_of words.now ≡ option_map shape_by result }
    ensures bounded { IfSome result IsBounded }
{
    match words {
        [command, word] => short(command.as_str(), word.as_str()),
        [command, option, config] => check_of(command.as_str(), option.as_str(), config.as_str()),
        [command, script, other, last] => long(
            command.as_str(),
            script.as_str(),
            other.as_str(),
            last.as_str(),
        ),
        _ => match keys_in(words) {
            Some((config, asked)) => Some(Command::Keys { config, asked }),
            None => None,
        },
    }
}

fn short<'w>(command: &str, word: &'w str) -> Option<Command<'w>>
    ensures shape { short_shape command.now word.now ≡ option_map shape_by result }
    ensures bounded { IfSome result IsBounded }
{
    if command == "load" {
        load_number(word.as_bytes()).map(|n| Command::Load { n })
    } else if names_file(word.as_bytes()) {
        scripted(command, word, None)
    } else {
        None
    }
}

fn check_of<'w>(command: &str, option: &str, config: &'w str) -> Option<Command<'w>>
    ensures shape { check_shape command.now option.now config.now ≡ option_map shape_by result }
    ensures bounded { IfSome result IsBounded }
{
    if command == "check" && option == "--config" && names_file(config.as_bytes()) {
        Some(Command::Check { config })
    } else {
        None
    }
}

fn long<'w>(command: &str, script: &'w str, other: &'w str, last: &'w str) -> Option<Command<'w>>
    ensures shape { long_shape command.now script.now other.now last.now
        ≡ option_map shape_by result }
    ensures bounded { IfSome result IsBounded }
{
    if command == "relay" {
        relay_of(script, other, last)
    } else {
        named(command, script, other, last)
    }
}

fn relay_of<'w>(script: &'w str, first: &'w str, second: &'w str) -> Option<Command<'w>>
    ensures shape { relay_shape script.now first.now second.now ≡ option_map shape_by result }
    ensures bounded { IfSome result IsBounded }
{
    if names_file(script.as_bytes())
        && names_file(first.as_bytes())
        && names_file(second.as_bytes())
    {
        Some(Command::Relay {
            script,
            first,
            second,
        })
    } else {
        None
    }
}

fn named<'w>(command: &str, script: &'w str, option: &str, config: &'w str) -> Option<Command<'w>>
    ensures shape { named_shape command.now script.now option.now config.now
        ≡ option_map shape_by result }
    ensures bounded { IfSome result IsBounded }
{
    if option == "--config" && names_file(script.as_bytes()) && names_file(config.as_bytes()) {
        scripted(command, script, Some(config))
    } else {
        None
    }
}

fn scripted<'w>(command: &str, script: &'w str, config: Option<&'w str>) -> Option<Command<'w>>
    ensures shape { script_shape command.now script.now (option_copied config.entry)
        ≡ option_map shape_by result }
    ensures bounded { IfSome result IsBounded }
{
    if command == "play" {
        Some(Command::Play { script, config })
    } else if command == "run" {
        Some(Command::Run { script, config })
    } else if command == "json" {
        Some(Command::Json { script, config })
    } else if command == "lanes" {
        Some(Command::Lanes { script, config })
    } else {
        None
    }
}
