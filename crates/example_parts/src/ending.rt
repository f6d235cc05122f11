//! Why a program ends before its time.
use crate::calling::Program;
use ps_config::ConfigEnd;
use std::alloc::{AllocError, AllocFailed};
use std::error::Error;
use std::fmt::{self, Display, Formatter, Write};
use ua_base::NoMemory;

/// Why a program ends before its time.
#[derive(Debug, Drop)]
pub enum Fault {
    /// The words aren't those that the program takes.
    BadWords(Program),
    /// There is no configuration.
    Config(ConfigEnd),
    /// The configuration isn't of the form that the program publishes or reads.
    Unlike,
    /// The configuration has no port, which keeps a second publisher from the same numbers.
    NoPort,
    /// The file of this name can't be read.
    Unread(String),
    /// The file of this name has more than 1,048,576 bytes.
    Long(String),
    /// The output can't be written.
    Unwritten,
    /// Memory ran out.
    Memory,
    /// The port can't be had.
    Unopened(u16),
    /// Numbers can't be reserved in the file of this name.
    Unreserved(String),
    /// The file of this name tells of a later token.
    OldToken(String),
    /// The token has no numbers left.
    Spent,
    /// The clock can't be read.
    NoClock,
}

impl Fault {
    /// The exit status of the process.
    pub fn status(&self) -> u8 {
        match self {
            Fault::BadWords(_) => 2,
            Fault::Config(ConfigEnd::Refused { .. }) | Fault::Unlike | Fault::NoPort => 3,
            Fault::Unread(_) => 5,
            Fault::Unwritten => 6,
            Fault::Config(ConfigEnd::Memory) | Fault::Memory => 7,
            Fault::Unopened(_) => 8,
            Fault::Long(_) => 9,
            Fault::Unreserved(_) | Fault::OldToken(_) => 10,
            Fault::Spent => 11,
            Fault::NoClock => 12,
        }
    }
}

impl Display for Fault {
    fn fmt<W: Write>(&self, f: &mut Formatter<W>) -> fmt::Result {
        match self {
            Fault::BadWords(program) => {
                let usage = program.usage();
                write!(f, "the words are: {usage}")
            }
            Fault::Config(end) => tell_config(end, f),
            Fault::Unlike => f.write_str("the configuration isn't of this program's form"),
            Fault::NoPort => f.write_str("the publisher's port has to be above 0"),
            Fault::Unread(file) => write!(f, "cannot read {file}"),
            Fault::Long(file) => write!(f, "file too long: {file}"),
            Fault::Unwritten => f.write_str("cannot write the output"),
            Fault::Memory => f.write_str("out of memory"),
            Fault::Unopened(port) => write!(f, "cannot open port {port}"),
            Fault::Unreserved(file) => write!(f, "cannot reserve numbers in {file}"),
            Fault::OldToken(file) => {
                write!(f, "{file} tells of a later token than the configuration")
            }
            Fault::Spent => {
                f.write_str("the token has no numbers left: give the key group a later one")
            }
            Fault::NoClock => f.write_str("cannot read the clock"),
        }
    }
}

/// Why there is no configuration, as the command check says it.
fn tell_config<W: Write>(end: &ConfigEnd, f: &mut Formatter<W>) -> fmt::Result {
    match end {
        ConfigEnd::Memory => f.write_str("out of memory"),
        ConfigEnd::Refused { .. } => write!(f, "config: {end}"),
    }
}

impl Error for Fault {}

impl From<ConfigEnd> for Fault {
    fn from(end: ConfigEnd) -> Fault {
        Fault::Config(end)
    }
}

impl From<NoMemory> for Fault {
    fn from(_: NoMemory) -> Fault {
        Fault::Memory
    }
}

impl From<AllocError> for Fault {
    fn from(_: AllocError) -> Fault {
        Fault::Memory
    }
}

impl<T: Drop> From<AllocFailed<T>> for Fault {
    fn from(_: AllocFailed<T>) -> Fault {
        Fault::Memory
    }
}
