//! Numbers of refusals.
ghost use Rattle.std.specs.Prelude.{◌≡◌};
ghost use Rattle.uapubsub_c.specs.Numbers.{guard_number, header_number, refusal_number};

use message_guard::OpenFault;
use reader_group::Refusal;
use uadp_header::HeaderFault;

/// The number by which C sees why a datagram is refused.
pub fn refusal_number(refusal: &Refusal) -> u32
    ensures { result ≡ refusal_number refusal.now }
{
    match refusal {
        Refusal::Header(fault) => header_number(fault),
        Refusal::NotOurs => 110,
        Refusal::NoIds => 111,
        Refusal::BadSizes => 112,
        Refusal::Guard(fault) => guard_number(fault),
    }
}

fn header_number(fault: &HeaderFault) -> u32
    ensures { result ≡ header_number fault.now }
{
    match fault {
        HeaderFault::Short => 101,
        HeaderFault::Version { .. } => 102,
        HeaderFault::DiscoveryOut => 103,
        HeaderFault::BadPublisherType => 104,
        HeaderFault::ReservedBits => 105,
        HeaderFault::BadId => 106,
    }
}

fn guard_number(fault: &OpenFault) -> u32
    ensures { result ≡ guard_number fault.now }
{
    match fault {
        OpenFault::ModeDiffers => 121,
        OpenFault::FooterOut => 122,
        OpenFault::KeyResetOut => 123,
        OpenFault::BadNonceLength { .. } => 124,
        OpenFault::Short => 125,
        OpenFault::UnknownToken { .. } => 126,
        OpenFault::OldToken { .. } => 127,
        OpenFault::BadSignature => 128,
        OpenFault::Repeated => 129,
        OpenFault::TooOld { .. } => 130,
    }
}
