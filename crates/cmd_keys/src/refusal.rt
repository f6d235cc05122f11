//! Why no keys are answered.
ghost use Rattle.std.specs.Prelude.{◌≡◌};
ghost use Rattle.cmd_keys.specs.Texts.{refusal_name};

use key_service::ServiceFault;

/// Why no keys are answered.
#[derive(Clone, Copy, Debug)]
pub enum Refusal {
    /// No key group has the name (OPC 10000-14 8.3.2, Bad_NotFound).
    NotFound,
    /// The keys of the key group can't be served.
    Unserved(ServiceFault),
}

impl Refusal {
    pub fn name(self) -> &'static str
        ensures { result.now ≡ refusal_name self }
    {
        match self {
            Refusal::NotFound => "NotFound",
            Refusal::Unserved(ServiceFault::TooFew) => "TooFew",
            Refusal::Unserved(ServiceFault::NotConsecutive { .. }) => "NotConsecutive",
            Refusal::Unserved(ServiceFault::Uneven { .. }) => "Uneven",
        }
    }
}
