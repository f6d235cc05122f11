//! Why a guard refuses a datagram.
use std::error::Error;
use std::fmt;

/// Why a datagram is refused (OPC 10000-14 7.2.4.4, SecurityHeader). The first of these that holds is given.
#[derive(Clone, Copy, Debug, PartialEq, Eq)]
pub enum OpenFault {
    /// It isn't signed and encrypted as the mode wants it. No security header counts as neither.
    ModeDiffers,
    /// It has a security footer.
    FooterOut,
    /// Its sender asks for new keys.
    KeyResetOut,
    /// Its nonce hasn't 8 bytes.
    BadNonceLength { got: u8 },
    /// Fewer than 32 bytes come after the header.
    Short,
    /// No key set has its token.
    UnknownToken { got: u32 },
    /// A datagram of the higher token `high` was accepted.
    OldToken { got: u32, high: u32 },
    /// Its last 32 bytes aren't the signature of those before.
    BadSignature,
    /// A datagram with its token and number was accepted, and the number isn't too old.
    Repeated,
    /// Its number is 1,024 or more below `high`, the greatest accepted under its token.
    TooOld { high: u32 },
}

impl fmt::Display for OpenFault {
    ghost use Rattle.std.specs.Prelude.{Some};
    ghost use Rattle.message_guard.specs.FaultTexts.{open_fault};

    ghost output = { λ fault. Some (open_fault fault) };

    fn fmt<W: fmt::Write>(&self, f: &mut fmt::Formatter<W>) -> fmt::Result {
        match *self {
            OpenFault::ModeDiffers => f.write_str(
                "the datagram isn't signed and encrypted as the security mode wants: give both sides the same mode",
            ),
            OpenFault::FooterOut => f.write_str(
                "the datagram has a security footer, which isn't read: send without one",
            ),
            OpenFault::KeyResetOut => f.write_str(
                "the sender asks for new keys, which isn't followed: configure its next key set",
            ),
            OpenFault::BadNonceLength { got } => {
                write!(f, "the message nonce has {got} bytes: send with one of 8")
            }
            OpenFault::Short => f.write_str(
                "fewer than 32 bytes come after the header: send with a signature of 32 bytes",
            ),
            OpenFault::UnknownToken { got } => {
                write!(
                    f,
                    "no key set has security token {got}: add the sender's key set"
                )
            }
            OpenFault::OldToken { got, high } => {
                write!(
                    f,
                    "security token {got} is below {high}, which was accepted before: send with the keys of the higher one"
                )
            }
            OpenFault::BadSignature => f.write_str(
                "the last 32 bytes aren't the signature of those before: compare the signing keys of both sides",
            ),
            OpenFault::Repeated => f.write_str(
                "a datagram with this token and number was accepted before: leave out the copy",
            ),
            OpenFault::TooOld { high } => {
                write!(
                    f,
                    "the message number is 1,024 or more below {high}, the greatest accepted: send with a higher one"
                )
            }
        }
    }
}

impl Error for OpenFault {}
