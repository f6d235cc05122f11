//! What all commands have in common (words, statuses and their texts, how a configuration and a script are accepted, how a
//! command ends), and the commands `check` and `play`.
#![tactic(auto)]

mod accepting;
mod checking;
mod configuration;
mod ending;
mod file;
mod output;
mod playing;
mod script;
mod status;
mod telling;
mod word;

pub use accepting::{Accepted, accept};
pub use checking::check;
pub use configuration::{configuration_of, read_configuration};
pub use ending::status_of;
pub use file::read_file;
pub use output::write_text;
pub use playing::play;
pub use script::script_in;
pub use status::Status;
pub use telling::tell;
pub use word::{Word, names_file};
