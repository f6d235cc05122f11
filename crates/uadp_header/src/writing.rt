//! Writing headers.
ghost use Rattle.std.specs.Prelude.{◌≡◌, ◌+◌, ◌/◌, ◌^◌, ◌<◌, ◌≤◌, ◌∷◌, length, nat_lt, IfSome};
ghost use Rattle.std.specs.Int.{w16, w32, to_le_bytes};
ghost use Rattle.ua_binary.specs.Spelling.{block};
ghost use Rattle.ua_binary.specs.Writing.{laid, Puts, Writes};
ghost use Rattle.ua_binary.specs.Wire.{flag, optional};
ghost use Rattle.uadp_header.specs.Headers.{publisher_in, ids_in, security_in, header_in, if_there};
ghost use Rattle.uadp_header.specs.Spelling.{type_in, has_ids, is_chunk, publisher_bytes, ids_bytes, extended1_in, extended_bytes, flags_byte, flags_bytes, group_flags, group_bytes, security_flags, security_bytes, header_bytes, IsShortText, AreIds, IsSendersSecurity, IsSenders};
ghost use Rattle.uadp_header.specs.Steps.{HasRoom, publisher_part, security_part};

use crate::flags::{
    CHUNK, CLASS_ID, ENCRYPTED, EXTENDED1, EXTENDED2, GROUP_HEADER, GROUP_ID, GROUP_VERSION,
    ID_TEXT, ID_U8, ID_U16, ID_U32, ID_U64, MESSAGE_NUMBER, PAYLOAD_HEADER, PUBLISHER_ID, SECURITY,
    SEQUENCE, SIGNED, VERSION,
};
use crate::header::{Header, Ids, PublisherId, SecurityPart};
use crate::length::{header_len, most_len};
use ua_binary::{Pen, Room};

/// Writes a sender's header (OPC 10000-14 7.2.4.4, UADP NetworkMessage). Extended flags that aren't
/// needed are left out.
pub fn write_header(pen: &mut Pen<'_>, header: &Header<'_>) -> Result<(), Room>
    requires { IsSenders (header_in header.now) }
    ensures { Writes result pen.old pen.new (header_bytes (header_in header.now)) }
{
    if pen.room() < most_len(header) && is_past(pen.room(), header) {
        return Err(Room);
    }
    pen.at = put_header_at(&mut *pen.bytes, pen.at, header);
    Ok(())
}

/// Whether the header is longer than this. A call, since it is seldom asked.
#[inline(never)]
fn is_past(room: usize, header: &Header<'_>) -> bool
    requires { IsSenders (header_in header.now) }
    ensures { result ≡ nat_lt room (length (header_bytes (header_in header.now))) }
{
    room < header_len(header)
}

/// Writes the header into these bytes from `at` on, and answers where it ends. The bytes are lent, and
/// not the pen, so that the place stays in a register.
#[inline(always)]
fn put_header_at(bytes: &mut [u8], at: usize, header: &Header<'_>) -> usize
    requires senders { IsSenders (header_in header.now) }
    requires room { at + length (header_bytes (header_in header.now)) ≤ length bytes.old }
    ensures written { bytes.new ≡ laid bytes.old at (header_bytes (header_in header.now)) }
    ensures end { result ≡ at + length (header_bytes (header_in header.now)) }
    ensures within { result ≤ length bytes.new }
    ensures same_length { length bytes.new ≡ length bytes.old }
{
    let mut pen = Pen { bytes, at };
    put_header(&mut pen, header);
    pen.at
}

#[inline(always)]
fn put_header(pen: &mut Pen<'_>, header: &Header<'_>)
    requires senders { IsSenders (header_in header.now) }
    requires room { HasRoom pen.old (header_bytes (header_in header.now)) }
    ensures { Puts pen.old pen.new (header_bytes (header_in header.now)) }
{
    put_flags(pen, header);
    put_publisher_if(pen, &header.publisher);
    put_guid_if(pen, &header.class_id);
    put_group(pen, header);
    put_ids(pen, &header.ids);
    put_security_if(pen, &header.security);
}

/// The weight of a flag that is set.
#[inline(always)]
fn flag(set: bool, weight: u8) -> u8
    ensures { result ≡ flag set weight }
{
    if set { weight } else { 0 }
}

#[inline(always)]
fn id_type(publisher: &Option<PublisherId<'_>>) -> u8
    ensures number { result ≡ type_in (if_there publisher_in publisher.now) }
    ensures small { result ≤ 4 }
{
    match publisher {
        None | Some(PublisherId::U8(_)) => ID_U8,
        Some(PublisherId::U16(_)) => ID_U16,
        Some(PublisherId::U32(_)) => ID_U32,
        Some(PublisherId::U64(_)) => ID_U64,
        Some(PublisherId::Text(_)) => ID_TEXT,
    }
}

#[inline(always)]
fn has_ids(ids: &Ids<'_>) -> bool
    ensures { result ≡ has_ids (ids_in ids.now) }
{
    match ids {
        Ids::None => false,
        Ids::List(_) | Ids::Chunk(_) => true,
    }
}

#[inline(always)]
pub(crate) fn is_chunk(ids: &Ids<'_>) -> bool
    ensures { result ≡ is_chunk (ids_in ids.now) }
{
    match ids {
        Ids::None | Ids::List(_) => false,
        Ids::Chunk(_) => true,
    }
}

/// ExtendedFlags1, which is written where it isn't 0.
#[inline(always)]
pub(crate) fn extended1_of(header: &Header<'_>) -> u8
    ensures { result ≡ extended1_in (header_in header.now) }
{
    id_type(&header.publisher)
        + flag(header.class_id.is_some(), CLASS_ID)
        + flag(header.security.is_some(), SECURITY)
        + flag(is_chunk(&header.ids), EXTENDED2)
}

#[inline(always)]
#[tactic(auto, unfolding(crate::specs::Spelling::flags_bytes))]
fn put_flags(pen: &mut Pen<'_>, header: &Header<'_>)
    requires { HasRoom pen.old (flags_bytes (header_in header.now)) }
    ensures { Puts pen.old pen.new (flags_bytes (header_in header.now)) }
{
    let extended1 = extended1_of(header);
    pen.put_u8(flags_byte(has_ids(&header.ids), extended1));
    put_extended(pen, extended1, is_chunk(&header.ids));
}

#[inline(always)]
fn flags_byte(ids: bool, extended1: u8) -> u8
    ensures { result ≡ flags_byte ids extended1 }
{
    VERSION
        + PUBLISHER_ID
        + GROUP_HEADER
        + flag(ids, PAYLOAD_HEADER)
        + flag(extended1 > 0, EXTENDED1)
}

/// ExtendedFlags1 where it isn't 0, and ExtendedFlags2 of a chunk.
#[inline(always)]
fn put_extended(pen: &mut Pen<'_>, extended1: u8, chunk: bool)
    requires { HasRoom pen.old (extended_bytes extended1 chunk) }
    ensures { Puts pen.old pen.new (extended_bytes extended1 chunk) }
{
    if extended1 > 0 {
        pen.put_u8(extended1);
        if chunk {
            pen.put_u8(CHUNK);
        }
    }
}

#[inline(always)]
fn put_publisher_if(pen: &mut Pen<'_>, publisher: &Option<PublisherId<'_>>)
    requires text { IfSome (if_there publisher_in publisher.now) IsShortText }
    requires room { HasRoom pen.old (publisher_part publisher.now) }
    ensures { Puts pen.old pen.new (publisher_part publisher.now) }
{
    if let Some(publisher) = publisher {
        put_publisher(pen, publisher);
    }
}

#[inline(always)]
fn put_publisher(pen: &mut Pen<'_>, publisher: &PublisherId<'_>)
    requires text { IsShortText (publisher_in publisher.now) }
    requires room { HasRoom pen.old (publisher_bytes (publisher_in publisher.now)) }
    ensures { Puts pen.old pen.new (publisher_bytes (publisher_in publisher.now)) }
{
    match publisher {
        PublisherId::U8(id) => pen.put_u8(*id),
        PublisherId::U16(id) => pen.put_u16(*id),
        PublisherId::U32(id) => pen.put_u32(*id),
        PublisherId::U64(id) => pen.put_u64(*id),
        PublisherId::Text(text) => put_block(pen, text.as_bytes()),
    }
}

/// An Int32 length and the bytes (OPC 10000-6 section 5.2.2.4).
#[inline(always)]
fn put_block(pen: &mut Pen<'_>, bytes: &[u8])
    requires short { length bytes.now < 2 ^ 31 }
    requires room { HasRoom pen.old (block bytes.now) }
    ensures { Puts pen.old pen.new (block bytes.now) }
{
    pen.put_u32(bytes.len() as u32);
    pen.put_bytes(bytes);
}

#[inline(always)]
fn put_guid_if(pen: &mut Pen<'_>, guid: &Option<[u8; 16]>)
    requires { HasRoom pen.old (optional (λ bytes. bytes) guid.now) }
    ensures { Puts pen.old pen.new (optional (λ bytes. bytes) guid.now) }
{
    if let Some(guid) = guid {
        pen.put_bytes(guid);
    }
}

#[inline(always)]
fn put_u16_if(pen: &mut Pen<'_>, number: Option<u16>)
    requires { HasRoom pen.old (optional (to_le_bytes w16) number) }
    ensures { Puts pen.old pen.new (optional (to_le_bytes w16) number) }
{
    if let Some(number) = number {
        pen.put_u16(number);
    }
}

#[inline(always)]
fn put_u32_if(pen: &mut Pen<'_>, number: Option<u32>)
    requires { HasRoom pen.old (optional (to_le_bytes w32) number) }
    ensures { Puts pen.old pen.new (optional (to_le_bytes w32) number) }
{
    if let Some(number) = number {
        pen.put_u32(number);
    }
}

#[inline(always)]
fn group_flags(header: &Header<'_>) -> u8
    ensures { result ≡ group_flags (header_in header.now) }
{
    GROUP_ID
        + flag(header.version.is_some(), GROUP_VERSION)
        + flag(header.message_number.is_some(), MESSAGE_NUMBER)
        + flag(header.sequence.is_some(), SEQUENCE)
}

#[inline(always)]
#[tactic(auto, unfolding(crate::specs::Spelling::group_bytes))]
fn put_group(pen: &mut Pen<'_>, header: &Header<'_>)
    requires { HasRoom pen.old (group_bytes (header_in header.now)) }
    ensures { Puts pen.old pen.new (group_bytes (header_in header.now)) }
{
    pen.put_u8(group_flags(header));
    put_u16_if(pen, header.group);
    put_u32_if(pen, header.version);
    put_u16_if(pen, header.message_number);
    put_u16_if(pen, header.sequence);
}

/// A count and the ids, or the id of a chunk's writer.
#[inline(always)]
fn put_ids(pen: &mut Pen<'_>, ids: &Ids<'_>)
    requires ids { AreIds (ids_in ids.now) }
    requires room { HasRoom pen.old (ids_bytes (ids_in ids.now)) }
    ensures { Puts pen.old pen.new (ids_bytes (ids_in ids.now)) }
{
    match ids {
        Ids::None => {}
        Ids::List(bytes) => put_counted(pen, bytes),
        Ids::Chunk(id) => pen.put_u16(*id),
    }
}

#[inline(always)]
fn put_counted(pen: &mut Pen<'_>, ids: &[u8])
    requires few { length ids.now ≤ 510 }
    requires room { HasRoom pen.old ((length ids.now / 2) ∷ ids.now) }
    ensures { Puts pen.old pen.new ((length ids.now / 2) ∷ ids.now) }
{
    pen.put_u8((ids.len() / 2) as u8);
    put_few(pen, ids);
}

/// Writes the bytes: those of one, two or four ids in one store, and others by a call.
#[inline(always)]
fn put_few(pen: &mut Pen<'_>, bytes: &[u8])
    requires { HasRoom pen.old bytes.now }
    ensures { Puts pen.old pen.new bytes.now }
{
    match bytes.len() {
        2 => put_all::<2>(pen, bytes),
        4 => put_all::<4>(pen, bytes),
        8 => put_all::<8>(pen, bytes),
        _ => pen.put_bytes(bytes),
    }
}

/// Writes the bytes, which are `N`, so that the compiler knows how many.
#[inline(always)]
fn put_all<const N: usize>(pen: &mut Pen<'_>, bytes: &[u8])
    requires all { length bytes.now ≡ N }
    requires room { HasRoom pen.old bytes.now }
    ensures { Puts pen.old pen.new bytes.now }
{
    let Some((bytes, _)) = bytes.split_first_chunk::<N>() else {
        unreachable!();
    };
    let bytes = *bytes;
    pen.put_bytes(&bytes);
}

#[inline(always)]
fn put_security_if(pen: &mut Pen<'_>, security: &Option<SecurityPart<'_>>)
    requires senders { IfSome (if_there security_in security.now) IsSendersSecurity }
    requires room { HasRoom pen.old (security_part security.now) }
    ensures { Puts pen.old pen.new (security_part security.now) }
{
    if let Some(security) = security {
        put_security(pen, security);
    }
}

#[inline(always)]
#[tactic(auto, unfolding(crate::specs::Spelling::security_bytes))]
fn put_security(pen: &mut Pen<'_>, security: &SecurityPart<'_>)
    requires senders { IsSendersSecurity (security_in security.now) }
    requires room { HasRoom pen.old (security_bytes (security_in security.now)) }
    ensures { Puts pen.old pen.new (security_bytes (security_in security.now)) }
{
    pen.put_u8(security_flags(security));
    pen.put_u32(security.token);
    put_nonce(pen, security.nonce);
}

#[inline(always)]
fn security_flags(security: &SecurityPart<'_>) -> u8
    ensures { result ≡ security_flags (security_in security.now) }
{
    flag(security.signed, SIGNED) + flag(security.encrypted, ENCRYPTED)
}

#[inline(always)]
fn put_nonce(pen: &mut Pen<'_>, nonce: &[u8])
    requires eight { length nonce.now ≡ 8 }
    requires room { HasRoom pen.old (length nonce.now ∷ nonce.now) }
    ensures { Puts pen.old pen.new (length nonce.now ∷ nonce.now) }
{
    pen.put_u8(nonce.len() as u8);
    put_all::<8>(pen, nonce);
}
