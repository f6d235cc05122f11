//! The headers of a turn's datagrams.
ghost use Rattle.std.specs.Prelude.{◌≡◌, ◌≢◌, ◌<◌, ◌^◌, IfSome, Some, is_some, length};
ghost use Rattle.ua_binary.specs.Wire.{flag};
ghost use Rattle.uadp_header.specs.Headers.{header_in, publisher_in, ids_in, security_in, if_there};
ghost use Rattle.uadp_header.specs.Spelling.{len_if, IsPublisher, AreIds, IsIds, IsSendersSecurity, IsWritten};
ghost use Rattle.ps_config.specs.Headers.{publisher_value, version_value};
ghost use Rattle.writer_group.specs.Limits.{most_datagrams};
ghost use Rattle.writer_group.specs.Envelopes.{number_if};
ghost use Rattle.writer_group.specs.Holding.{header_by, CanBeWritten};

use ps_config::{GroupPart, Publisher, publisher_id};
use uadp_header::{Header, Ids, PublisherId, SecurityPart};

/// What the headers of a turn's datagrams have in common.
#[derive(Clone, Copy, Debug)]
pub(crate) struct HeaderParts<'a> {
    pub publisher: PublisherId<'a>,
    pub group: &'a GroupPart,
    /// How many datagrams the group made before the turn, modulo 65536.
    pub made: u16,
}

impl<'a> HeaderParts<'a> {
    pub fn new(publisher: &'a Publisher, group: &'a GroupPart, made: u16) -> HeaderParts<'a>
        ensures publisher { publisher_in result.publisher ≡ publisher_value publisher.now }
        ensures group { result.group.now ≡ group.now }
        ensures made { result.made ≡ made }
        ensures written { CanBeWritten (publisher_in result.publisher) }
    {
        HeaderParts {
            publisher: judged(publisher_id(publisher)),
            group,
            made,
        }
    }

    /// The header of the turn's datagram with this index, from 0.
    #[inline(always)]
    pub fn header(
        &'a self,
        index: u16,
        ids: Ids<'a>,
        security: Option<SecurityPart<'a>>,
    ) -> Header<'a>
        requires few { index < most_datagrams }
        requires publisher { CanBeWritten (publisher_in self.now.publisher) }
        requires ids { AreIds (ids_in ids) }
        requires is_ids { IsIds (ids_in ids) }
        requires security { IfSome (if_there security_in security) IsSendersSecurity }
        ensures header { header_in result ≡ header_by self.now index security.entry ids.entry }
        ensures written { IsWritten (header_in result) }
    {
        class_id_is_whole(self.group.class_id);
        security_is_narrow(security);
        Header {
            publisher: Some(self.publisher),
            class_id: self.group.class_id,
            group: group_in(self.group.id),
            version: version_in(self.group.version),
            message_number: number_if(self.group.message_number, index + 1),
            sequence: number_if(self.group.sequence, self.made.wrapping_add(index)),
            ids,
            security,
        }
    }
}

/// A GroupVersion is carried where it isn't 0.
fn version_in(version: u32) -> Option<u32>
    ensures version { result ≡ version_value version }
    ensures carried { result ≢ Some 0 }
    ensures small { IfSome result (λ n. n < 2 ^ 32) }
{
    if version == 0 { None } else { Some(version) }
}

fn number_if(holds: bool, number: u16) -> Option<u16>
    ensures number { result ≡ number_if holds number }
    ensures small { IfSome result (λ n. n < 2 ^ 16) }
{
    if holds { Some(number) } else { None }
}

// The functions from here on give back what they are given. They are for the prover alone, as are `numbers_are_narrow` of
// answering.rt with what it calls, and `a_class_id_is_whole` of settings.rt. The prover knows the range of a value from its type
// where the value stands by itself, as an argument or as what a `match` takes out. It doesn't where the value stands inside an
// `Option` or a variant that comes from elsewhere. So each takes its value apart, and its contract keeps what is seen there: how
// many bits a number has, that a text is UTF-8, how many bytes an id has.

/// Each datagram carries its group's id.
fn group_in(id: u16) -> Option<u16>
    ensures group { result ≡ Some id }
    ensures small { IfSome result (λ n. n < 2 ^ 16) }
{
    Some(id)
}

/// The publisher's id as it is: its number is of its type, and its text is UTF-8.
fn judged(id: PublisherId<'_>) -> PublisherId<'_>
    ensures same { publisher_in result ≡ publisher_in id.entry }
    ensures known { IsPublisher (publisher_in result) }
{
    match id {
        PublisherId::U8(id) => PublisherId::U8(id),
        PublisherId::U16(id) => PublisherId::U16(id),
        PublisherId::U32(id) => PublisherId::U32(id),
        PublisherId::U64(id) => PublisherId::U64(id),
        PublisherId::Text(text) => PublisherId::Text(text),
    }
}

/// The class id as it is, of 16 bytes.
pub(crate) fn whole(id: Option<[u8; 16]>) -> Option<[u8; 16]>
    ensures same { result ≡ id }
    ensures whole { IfSome result (λ guid. length guid ≡ 16) }
    ensures long { len_if length result ≡ flag (is_some result) 16 }
{
    match id {
        None => None,
        Some(guid) => Some(guid),
    }
}

/// A class id has 16 bytes. What this looks at isn't copied: the header takes the id from where it stands.
fn class_id_is_whole(id: Option<[u8; 16]>)
    ensures { IfSome id (λ guid. length guid ≡ 16) }
{
    let _id = whole(id);
}

/// A token has 32 bits; and so with the security header.
fn security_is_narrow(security: Option<SecurityPart<'_>>)
    ensures { IfSome (if_there security_in security.entry) (λ s. s.token < 2 ^ 32) }
{
    let _part = narrow(security);
}

/// The security header as it is, whose token has 32 bits.
fn narrow(security: Option<SecurityPart<'_>>) -> Option<SecurityPart<'_>>
    ensures same { if_there security_in result ≡ if_there security_in security.entry }
    ensures narrow { IfSome (if_there security_in result) (λ s. s.token < 2 ^ 32) }
{
    match security {
        None => None,
        Some(part) => Some(part),
    }
}
