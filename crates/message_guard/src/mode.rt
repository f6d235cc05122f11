ghost use Rattle.std.specs.Prelude.{◌≡◌};
ghost use Rattle.message_guard.specs.Modes.{is_secured, encrypts};

/// What is done to a datagram (OPC 10000-14, MessageSecurityMode).
#[derive(Clone, Copy, Debug, PartialEq, Eq)]
pub enum Mode {
    /// Neither signed nor encrypted.
    None,
    /// Signed.
    Sign,
    /// Encrypted, and signed then.
    Encrypt,
}

impl Mode {
    pub(crate) fn is_secured(self) -> bool
        ensures { result ≡ is_secured self }
    {
        match self {
            Mode::None => false,
            Mode::Sign | Mode::Encrypt => true,
        }
    }

    pub(crate) fn encrypts(self) -> bool
        ensures { result ≡ encrypts self }
    {
        match self {
            Mode::None | Mode::Sign => false,
            Mode::Encrypt => true,
        }
    }
}
