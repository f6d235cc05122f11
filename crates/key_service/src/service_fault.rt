//! Why a ring isn't served, and why no keys are answered.
ghost use Rattle.std.specs.Prelude.{Some};
ghost use Rattle.key_service.specs.FaultTexts.{key_fault, service_fault};

use std::error::Error;
use std::fmt;

/// Why a ring can't be served. The first of these that holds is given.
#[derive(Clone, Copy, Debug, PartialEq, Eq)]
pub enum ServiceFault {
    /// Fewer than two keys.
    TooFew,
    /// The first key whose token isn't that of the key before it plus one.
    NotConsecutive { index: u8 },
    /// The first key whose moment isn't that of the key before it plus the distance of the first two.
    Uneven { index: u8 },
}

impl fmt::Display for ServiceFault {
    ghost output = { λ fault. Some (service_fault fault) };

    fn fmt<W: fmt::Write>(&self, f: &mut fmt::Formatter<W>) -> fmt::Result {
        match *self {
            ServiceFault::TooFew => f.write_str(
                "a key service wants two keys or more: the distance of their moments is the lifetime",
            ),
            ServiceFault::NotConsecutive { index } => {
                write!(
                    f,
                    "key {index} doesn't have the token after that of the key before it"
                )
            }
            ServiceFault::Uneven { index } => {
                write!(
                    f,
                    "key {index} isn't as far from the key before it as the second is from the first"
                )
            }
        }
    }
}

impl Error for ServiceFault {}

/// Why GetSecurityKeys answers no keys.
#[derive(Clone, Copy, Debug, PartialEq, Eq)]
pub enum KeyFault {
    /// The security group that is asked for isn't that of the service (OPC 10000-14 8.3.2, Bad_NotFound).
    NotFound,
}

impl fmt::Display for KeyFault {
    ghost output = { λ fault. Some (key_fault fault) };

    fn fmt<W: fmt::Write>(&self, f: &mut fmt::Formatter<W>) -> fmt::Result {
        match *self {
            KeyFault::NotFound => f.write_str("the key service is that of another security group"),
        }
    }
}

impl Error for KeyFault {}
