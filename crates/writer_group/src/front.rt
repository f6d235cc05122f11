//! Fronts of a sender.
ghost use Rattle.std.specs.Prelude.{◌≡◌, ◌<◌, true, IsTrue};
ghost use Rattle.uadp_header.specs.Headers.{security_in};
ghost use Rattle.message_guard.specs.Modes.{is_secured};
ghost use Rattle.message_guard.specs.Senders.{advanced, front_value};
ghost use Rattle.writer_group.specs.Numbers.{front_in};

use message_guard::{Mode, Sender};
use uadp_header::SecurityPart;

/// What a sender's front says, kept while its datagram is written: the sender lends its own no longer than to the next call.
#[derive(Clone, Copy, Debug)]
pub(crate) struct Front {
    pub encrypted: bool,
    pub token: u32,
    pub nonce: [u8; 8],
}

impl Front {
    /// The next front of the sender.
    pub fn next(sender: &mut Sender, mode: Mode) -> Front
        requires room { sender.old.used < 4294967295 }
        requires secured { IsTrue (is_secured mode) }
        ensures sender { sender.new ≡ advanced mode sender.old }
        ensures front { front_in result ≡ front_value mode sender.new }
    {
        let part = sender.front(mode);
        let mut nonce = [0; 8];
        nonce.copy_from_slice(part.nonce);
        Front {
            encrypted: part.encrypted,
            token: part.token,
            nonce,
        }
    }

    /// The security header that carries it.
    pub fn part(&self) -> SecurityPart<'_>
        ensures { security_in result ≡ front_in self.now }
    {
        SecurityPart {
            signed: true,
            encrypted: self.encrypted,
            footer: false,
            reset: false,
            token: self.token,
            nonce: &self.nonce,
        }
    }
}
