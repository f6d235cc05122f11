//! The words of the command.
ghost use Rattle.std.specs.Prelude.{◌≡◌, option_map};
ghost use Rattle.cmd_keys.specs.Words.{asked_in, keys_of};

use cmd_base::{Word, names_file};
use config_tables::number_spelled;
use dataset_meta::Name32;

/// A START and a COUNT are at most this.
const MOST_32: u64 = 4_294_967_295;

/// An MS is at most this, 2^40.
const MOST_MOMENT: u64 = 1_099_511_627_776;

/// What a key service is asked for (OPC 10000-14 8.3.2, GetSecurityKeys), and when.
#[derive(Clone, Copy, Debug)]
pub struct Asked {
    /// The security group; none where the word is no name, so that no group has it.
    pub group: Option<Name32>,
    /// The token of the first key, and 0 for the current one.
    pub start: u32,
    /// How many keys; at least one is answered.
    pub count: u32,
    /// The moment, in milliseconds.
    pub moment: u64,
}

/// The file and what is asked of it, by `keys FILE GROUP START COUNT MS`, and by no other words. START and COUNT are 0 to
/// 4294967295 and MS is 0 to 2^40, decimal without a leading zero; GROUP is any word.
pub fn keys_in(words: &[Word]) -> Option<(&str, Asked)>
    ensures { option_map (λ found. (found.0.now, found.1)) result ≡ keys_of words.now }
{
    let [command, file, group, start, count, moment] = words else {
        return None;
    };
    let file = file.as_str();
    if command.as_str() != "keys" || !names_file(file.as_bytes()) {
        return None;
    }
    match asked_in(
        group.as_str(),
        start.as_str(),
        count.as_str(),
        moment.as_str(),
    ) {
        Some(asked) => Some((file, asked)),
        None => None,
    }
}

fn asked_in(group: &str, start: &str, count: &str, moment: &str) -> Option<Asked>
    ensures { result ≡ asked_in group.now start.now count.now moment.now }
{
    let group = Name32::new(group.as_bytes());
    let start = number_spelled(start.as_bytes(), MOST_32)?;
    let count = number_spelled(count.as_bytes(), MOST_32)?;
    let moment = number_spelled(moment.as_bytes(), MOST_MOMENT)?;
    Some(Asked {
        group,
        start: start as u32,
        count: count as u32,
        moment,
    })
}
