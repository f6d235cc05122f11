//! How long a sender's header is.
ghost use Rattle.std.specs.Prelude.{◌≡◌, ◌<◌, ◌+◌, ◌^◌, ◌≤◌, IfSome, is_some, length};
ghost use Rattle.ua_binary.specs.Wire.{flag};
ghost use Rattle.uadp_header.specs.Headers.{publisher_in, ids_in, security_in, header_in, if_there};
ghost use Rattle.uadp_header.specs.Spelling.{len_if, publisher_len, ids_len, extended_len, group_len, security_len, header_len, header_bytes, IsShortText, AreIds, IsSendersSecurity, IsSenders};

use crate::header::{Header, Ids, PublisherId, SecurityPart};
use crate::writing::{extended1_of, is_chunk};

/// How many bytes `write_header` writes. It goes by the parts that are there and by the lengths of
/// a text, of a list of ids and of a nonce; no number counts.
#[inline(always)]
#[tactic(auto, unfolding(crate::specs::Spelling::header_len))]
pub fn header_len(header: &Header<'_>) -> usize
    requires { IsSenders (header_in header.now) }
    ensures len { result ≡ header_len (header_in header.now) }
    ensures exact { result ≡ length (header_bytes (header_in header.now)) }
{
    1 + extended_len(header)
        + publisher_len(&header.publisher)
        + guid_len(&header.class_id)
        + group_len(header)
        + ids_len(&header.ids)
        + security_len(&header.security)
}

// The flags, the group header and the security header of a sender's header, each of their parts
// there.
const MOST_FLAGS: usize = 3;

const MOST_GROUP: usize = 11;

const MOST_SECURITY: usize = 14;

/// The header is no longer than this, which goes by fewer parts than its length: most are counted as
/// if they were there.
#[inline(always)]
pub(crate) fn most_len(header: &Header<'_>) -> usize
    requires { IsSenders (header_in header.now) }
    ensures { length (header_bytes (header_in header.now)) ≤ result }
{
    MOST_FLAGS
        + most_publisher_len(&header.publisher)
        + guid_len(&header.class_id)
        + MOST_GROUP
        + most_ids_len(&header.ids)
        + MOST_SECURITY
}

#[inline(always)]
fn most_publisher_len(publisher: &Option<PublisherId<'_>>) -> usize
    requires { IfSome (if_there publisher_in publisher.now) IsShortText }
    ensures most { len_if publisher_len (if_there publisher_in publisher.now) ≤ result }
    ensures small { result < 2 ^ 32 }
{
    match publisher {
        Some(PublisherId::Text(text)) => 4 + text.len(),
        None
        | Some(
            PublisherId::U8(_) | PublisherId::U16(_) | PublisherId::U32(_) | PublisherId::U64(_),
        ) => 8,
    }
}

#[inline(always)]
fn most_ids_len(ids: &Ids<'_>) -> usize
    requires { AreIds (ids_in ids.now) }
    ensures most { ids_len (ids_in ids.now) ≤ result }
    ensures small { result ≤ 511 }
{
    match ids {
        Ids::List(bytes) => 1 + bytes.len(),
        Ids::None | Ids::Chunk(_) => 2,
    }
}

#[inline(always)]
fn part_len(present: bool, len: usize) -> usize
    ensures { result ≡ flag present len }
{
    if present { len } else { 0 }
}

#[inline(always)]
fn extended_len(header: &Header<'_>) -> usize
    ensures len { result ≡ extended_len (header_in header.now) }
    ensures small { result ≤ 2 }
{
    part_len(extended1_of(header) > 0, 1) + part_len(is_chunk(&header.ids), 1)
}

#[inline(always)]
fn publisher_len(publisher: &Option<PublisherId<'_>>) -> usize
    requires { IfSome (if_there publisher_in publisher.now) IsShortText }
    ensures len { result ≡ len_if publisher_len (if_there publisher_in publisher.now) }
    ensures small { result < 2 ^ 32 }
{
    match publisher {
        None => 0,
        Some(PublisherId::U8(_)) => 1,
        Some(PublisherId::U16(_)) => 2,
        Some(PublisherId::U32(_)) => 4,
        Some(PublisherId::U64(_)) => 8,
        Some(PublisherId::Text(text)) => 4 + text.len(),
    }
}

#[inline(always)]
fn guid_len(guid: &Option<[u8; 16]>) -> usize
    ensures len { result ≡ len_if length guid.now }
    ensures same { result ≡ flag (is_some guid.now) 16 }
{
    match guid {
        None => 0,
        Some(guid) => bytes_len(guid),
    }
}

#[inline(always)]
fn bytes_len(guid: &[u8; 16]) -> usize
    ensures len { result ≡ length guid.now }
    ensures same { result ≡ 16 }
{
    guid.len()
}

#[inline(always)]
fn group_len(header: &Header<'_>) -> usize
    ensures len { result ≡ group_len (header_in header.now) }
    ensures small { result ≤ 11 }
{
    1 + part_len(header.group.is_some(), 2)
        + part_len(header.version.is_some(), 4)
        + part_len(header.message_number.is_some(), 2)
        + part_len(header.sequence.is_some(), 2)
}

#[inline(always)]
fn ids_len(ids: &Ids<'_>) -> usize
    requires { AreIds (ids_in ids.now) }
    ensures len { result ≡ ids_len (ids_in ids.now) }
    ensures small { result ≤ 511 }
{
    match ids {
        Ids::None => 0,
        Ids::List(bytes) => 1 + bytes.len(),
        Ids::Chunk(_) => 2,
    }
}

#[inline(always)]
fn security_len(security: &Option<SecurityPart<'_>>) -> usize
    requires { IfSome (if_there security_in security.now) IsSendersSecurity }
    ensures len { result ≡ len_if security_len (if_there security_in security.now) }
    ensures small { result ≤ 14 }
{
    match security {
        None => 0,
        Some(security) => 6 + security.nonce.len(),
    }
}
