//! A small run of two devices, which is one of the lives that the laws speak of.
ghost use Rattle.std.specs.Prelude.{IfOk, IfSome};
ghost use Rattle.device.specs.Sides.{IsPublisher, IsSubscriber};
ghost use Rattle.device_laws.specs.Small.{HasRun};

use device::{Next, Publisher, Subscriber};
use ps_config::ConfigEnd;
use std::alloc::Global;
use ua_values::Value;

/// A publisher and a subscriber of one configuration.
#[derive(Drop)]
pub struct Pair {
    pub publisher: Publisher,
    pub subscriber: Subscriber,
}

/// Both are opened with the text, and the first field of the first data set is set. The publisher comes to this moment, in
/// milliseconds, and its datagram comes to the first read group. None where there is no such field or read group, or no datagram.
pub fn run_once(
    alloc: Global,
    text: &[u8],
    value: &Value,
    now: u64,
) -> Result<Option<Pair>, ConfigEnd>
    ensures run { IfOk result (λ pair. IfSome pair (HasRun text.now 0)) }
    ensures publisher { IfOk result (λ pair. IfSome pair (λ x. IsPublisher x.publisher)) }
    ensures subscriber { IfOk result (λ pair. IfSome pair (λ x. IsSubscriber x.subscriber)) }
{
    let mut publisher = Publisher::open(alloc, text)?;
    let mut subscriber = Subscriber::open(alloc, text)?;
    if !publisher.set(0, 0, value, 0) {
        return Ok(None);
    }
    if !matches!(publisher.come_to(now), Next::Datagram) {
        return Ok(None);
    }
    let mut bytes = Vec::from_slice(alloc, publisher.datagram())?;
    match subscriber.datagram(0, now, &mut bytes) {
        None => Ok(None),
        Some(_) => Ok(Some(Pair {
            publisher,
            subscriber,
        })),
    }
}
