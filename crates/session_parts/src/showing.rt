//! What came of sends and receives, while they go on and when they end.
ghost use Rattle.std.specs.Prelude.{◌≡◌, List};
ghost use Rattle.ua_base.specs.Journal.{Entry};
ghost use Rattle.session_model.specs.Steps.{Step};
ghost use Rattle.session_parts.specs.Showing.{link_of};
ghost use Rattle.session_parts.specs.Standing.{AreReceivesIn, AreSendsIn};

use crate::publisher::Publisher;
use crate::receiving::Receiving;
use ps_report::LinkEnd;

/// What came of all sends and receives.
pub fn link_end(publisher: &Publisher, receiving: &Receiving) -> LinkEnd
    ensures { (entries : List Entry) (steps : List Step) → AreSendsIn entries publisher.now.link
        → AreReceivesIn entries steps receiving.now → result ≡ link_of entries steps }
{
    LinkEnd {
        sent: publisher.link.done,
        failed: publisher.link.failed,
        received: receiving.received,
        broken: receiving.broken,
        long: receiving.long,
        limit: receiving.limit,
    }
}
