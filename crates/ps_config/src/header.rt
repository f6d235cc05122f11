//! The headers of a group's datagrams, as its settings tell them.
ghost use Rattle.std.specs.Prelude.{◌≡◌, ◌≢◌, ◌≤◌, Some, IfSome, length};
ghost use Rattle.uadp_header.specs.Headers.{publisher_in, ids_in, security_in, if_there, header_in};
ghost use Rattle.uadp_header.specs.Spelling.{header_len, publisher_len, ids_len, security_len, len_if, IsShortText, AreIds, IsSendersSecurity, IsSenders};
ghost use Rattle.ps_config.specs.Headers.{publisher_value, is_secured, is_encrypted, mode_of, security_value, version_value, zero_if, ids_of, header_of, signature_len};

use config_tables::{Publisher, Security};
use message_guard::Mode;
use std::str;
use ua_values::Text;
use uadp_header::{Header, Ids, PublisherId, SecurityPart};

/// What a group's settings tell of the headers of its datagrams (OPC 10000-14 7.2.4.4).
#[derive(Clone, Copy, Debug, PartialEq, Eq)]
pub struct HeaderSettings {
    /// The WriterGroupId.
    pub id: u16,
    /// The GroupVersion, which is carried where it isn't 0.
    pub version: u32,
    /// Whether the SequenceNumber is carried.
    pub sequence: bool,
    /// Whether the NetworkMessageNumber is carried.
    pub message_number: bool,
    /// The DataSetClassId, in the order of the wire.
    pub class_id: Option<[u8; 16]>,
    pub security: Security,
}

// A nonce's place.
static NONCE: [u8; 8] = [0; 8];

/// How many bytes a header takes in front of a chunk, or one without a payload header. It goes by
/// the settings alone: a number that a datagram tells counts by its presence, not by its value.
pub fn header_size(publisher: &Publisher, settings: &HeaderSettings, is_chunk: bool) -> u32
    ensures size { result ≡ header_len (header_of publisher.now settings.now (ids_of is_chunk)) }
    ensures bound { result ≤ 400 }
{
    uadp_header::header_len(&header_of(publisher, settings, is_chunk)) as u32
}

/// A header with no ids or with a chunk's. Its message number, sequence number, token and nonce
/// are 0.
fn header_of<'a>(publisher: &'a Publisher, settings: &HeaderSettings, is_chunk: bool) -> Header<'a>
    ensures header { header_in result ≡ header_of publisher.now settings.now (ids_of is_chunk) }
    ensures senders { IsSenders (header_in result) }
    ensures short { header_len (header_in result) ≤ 400 }
{
    Header {
        publisher: Some(publisher_id(publisher)),
        class_id: settings.class_id,
        group: Some(settings.id),
        version: version_in(settings.version),
        message_number: zero_if(settings.message_number),
        sequence: zero_if(settings.sequence),
        ids: ids_of(is_chunk),
        security: security_part(settings.security),
    }
}

fn ids_of(is_chunk: bool) -> Ids<'static>
    ensures ids { ids_in result ≡ ids_of is_chunk }
    ensures are_ids { AreIds (ids_in result) }
    ensures len { ids_len (ids_in result) ≤ 2 }
{
    if is_chunk { Ids::Chunk(0) } else { Ids::None }
}

/// The PublisherId that a publisher is.
pub fn publisher_id(publisher: &Publisher) -> PublisherId<'_>
    ensures id { publisher_in result ≡ publisher_value publisher.now }
    ensures short { IsShortText (publisher_in result) }
    ensures len { publisher_len (publisher_in result) ≤ 260 }
{
    match publisher {
        Publisher::U8(id) => PublisherId::U8(*id),
        Publisher::U16(id) => PublisherId::U16(*id),
        Publisher::U32(id) => PublisherId::U32(*id),
        Publisher::U64(id) => PublisherId::U64(*id),
        Publisher::Text(text) => PublisherId::Text(text_str(text)),
    }
}

fn text_str(text: &Text) -> &str
    ensures text { result.now ≡ text.now }
    ensures short { length result.now ≤ 256 }
{
    match str::from_utf8(text.as_bytes()) {
        Ok(text) => text,
        Err(_) => unreachable!(),
    }
}

fn version_in(version: u32) -> Option<u32>
    ensures version { result ≡ version_value version }
    ensures carried { result ≢ Some 0 }
{
    if version == 0 { None } else { Some(version) }
}

fn zero_if(holds: bool) -> Option<u16>
    ensures { result ≡ zero_if holds }
{
    if holds { Some(0) } else { None }
}

fn security_part(security: Security) -> Option<SecurityPart<'static>>
    ensures part { if_there security_in result ≡ security_value security }
    ensures senders { IfSome (if_there security_in result) IsSendersSecurity }
    ensures len { len_if security_len (if_there security_in result) ≤ 14 }
{
    if !is_secured(security) {
        return None;
    }
    Some(SecurityPart {
        signed: true,
        encrypted: is_encrypted(security),
        footer: false,
        reset: false,
        token: 0,
        nonce: &NONCE,
    })
}

/// Whether messages are signed, or signed and encrypted.
pub(crate) fn is_secured(security: Security) -> bool
    ensures { result ≡ is_secured security }
{
    match security {
        Security::None => false,
        Security::Sign | Security::Encrypt => true,
    }
}

fn is_encrypted(security: Security) -> bool
    ensures { result ≡ is_encrypted security }
{
    matches!(security, Security::Encrypt)
}

/// What a guard does to the datagrams of a group with this security (OPC 10000-14,
/// MessageSecurityMode).
pub fn mode_of(security: Security) -> Mode
    ensures { result ≡ mode_of security }
{
    match security {
        Security::None => Mode::None,
        Security::Sign => Mode::Sign,
        Security::Encrypt => Mode::Encrypt,
    }
}

/// The bytes of the signature after a datagram's payload: 32, or none where nothing is signed.
pub fn signature_size(security: Security) -> u32
    ensures size { result ≡ signature_len security }
    ensures bound { result ≤ 32 }
{
    if is_secured(security) { 32 } else { 0 }
}
