//! Which headers a sender may have.
ghost use Rattle.std.specs.Prelude.{◌≡◌, IsTrue, IsSome, IfSome};
ghost use Rattle.uadp_header.specs.Headers.{header_in, publisher_in, ids_in, security_in, if_there};
ghost use Rattle.uadp_header.specs.Spelling.{IsSenders, IsShortText, AreIds, IsSendersSecurity};

use uadp_header::{Header, Ids, PublisherId, SecurityPart};

/// Whether the header is one that a sender may have: with a publisher and a group, a version that isn't 0, at most 255 ids, and a
/// nonce of eight bytes, without footer and key reset, where it is secured.
pub fn is_senders(header: &Header) -> bool
    ensures { IsTrue result → IsSenders (header_in header.now) }
{
    has_publisher(&header.publisher)
        && header.group.is_some()
        && header.version != Some(0)
        && has_even_ids(&header.ids)
        && has_nonce(&header.security)
}

fn has_publisher(publisher: &Option<PublisherId>) -> bool
    ensures there { IsTrue result → IsSome (if_there publisher_in publisher.now) }
    ensures short { IsTrue result → IfSome (if_there publisher_in publisher.now) IsShortText }
{
    match publisher {
        Some(PublisherId::Text(text)) => text.len() < 65_536,
        Some(_) => true,
        None => false,
    }
}

fn has_even_ids(ids: &Ids) -> bool
    ensures { IsTrue result → AreIds (ids_in ids.now) }
{
    match ids {
        Ids::List(bytes) => bytes.len() % 2 == 0 && bytes.len() <= 510,
        Ids::None | Ids::Chunk(_) => true,
    }
}

fn has_nonce(security: &Option<SecurityPart>) -> bool
    ensures { IsTrue result → IfSome (if_there security_in security.now) IsSendersSecurity }
{
    match security {
        Some(part) => !part.footer && !part.reset && part.nonce.len() == 8,
        None => true,
    }
}
