//! Whose datagrams a read group takes.
ghost use Rattle.std.specs.Prelude.{◌≡◌, ℕ, List};
ghost use Rattle.uadp_header.specs.Headers.{publisher_in, header_in, if_there};
ghost use Rattle.uadp_header.specs.Layout.{header_at};
ghost use Rattle.uadp_header.specs.Reading.{GivesHeader};
ghost use Rattle.reader_group.specs.Opening.{refusal_read};
ghost use Rattle.reader_group.specs.Filter.{is_same_publisher, is_publisher, is_any_or, has_class, is_ours, takes_number};

use crate::refusal::Refusal;
use ps_config::{Publisher, ReadGroupPart};
use uadp_header::{Header, HeaderFault, PublisherId, read_header};

/// Why a datagram whose header was read so is refused, where the header alone tells: it can't be read, or the filter refuses it, or
/// it doesn't carry this NetworkMessageNumber, where that isn't 0.
pub(crate) fn refusal_of(
    group: &ReadGroupPart,
    number: u16,
    read: &Result<(Header<'_>, usize), HeaderFault>,
) -> Option<Refusal>
    ensures { (bytes : List ℕ) → GivesHeader read.now bytes
        → result ≡ refusal_read group.now number (header_at bytes) }
{
    match read {
        Err(fault) => Some(Refusal::Header(*fault)),
        Ok((header, _)) => {
            if carries(number, header.message_number) && is_ours(group, header) {
                return None;
            }
            Some(Refusal::NotOurs)
        }
    }
}

/// Whether it is the NetworkMessageNumber that is asked for. 0 asks for any, also for none.
fn carries(asked: u16, carried: Option<u16>) -> bool
    ensures { result ≡ is_any_or asked carried }
{
    asked == 0 || carried == Some(asked)
}

/// Whether the publisher, the group, its version and the class id are those that the read group asks for.
pub(crate) fn is_ours(group: &ReadGroupPart, header: &Header<'_>) -> bool
    ensures { result ≡ is_ours group.now (header_in header.now) }
{
    is_publisher(&group.publisher, &header.publisher)
        && is_group(group.group, header.group)
        && is_version(group.version, header.version)
        && has_class(&group.class_id, &header.class_id)
}

fn is_publisher(asked: &Publisher, carried: &Option<PublisherId<'_>>) -> bool
    ensures { result ≡ is_publisher asked.now (if_there publisher_in carried.now) }
{
    match carried {
        Some(id) => is_same_publisher(asked, id),
        None => false,
    }
}

fn is_same_publisher(asked: &Publisher, carried: &PublisherId<'_>) -> bool
    ensures { result ≡ is_same_publisher asked.now (publisher_in carried.now) }
{
    match (asked, carried) {
        (Publisher::U8(id), PublisherId::U8(other)) => *id == *other,
        (Publisher::U16(id), PublisherId::U16(other)) => *id == *other,
        (Publisher::U32(id), PublisherId::U32(other)) => *id == *other,
        (Publisher::U64(id), PublisherId::U64(other)) => *id == *other,
        (Publisher::Text(text), PublisherId::Text(other)) => text.as_bytes() == other.as_bytes(),
        _ => false,
    }
}

fn is_group(asked: u16, carried: Option<u16>) -> bool
    ensures { result ≡ is_any_or asked carried }
{
    asked == 0 || carried == Some(asked)
}

/// Whether the header carries this NetworkMessageNumber, where it can be read. 0 asks for any, also for none.
pub(crate) fn takes_number(asked: u16, datagram: &[u8]) -> bool
    ensures { result ≡ takes_number asked datagram.now }
{
    if asked == 0 {
        return true;
    }
    match read_header(datagram) {
        Ok((header, _)) => header.message_number == Some(asked),
        Err(_) => true,
    }
}

fn is_version(asked: u32, carried: Option<u32>) -> bool
    ensures { result ≡ is_any_or asked carried }
{
    asked == 0 || carried == Some(asked)
}

/// Whether a class id is the one that is asked for, where none asks for any.
pub fn has_class(asked: &Option<[u8; 16]>, carried: &Option<[u8; 16]>) -> bool
    ensures { result ≡ has_class asked.now carried.now }
{
    match (asked, carried) {
        (None, _) => true,
        (Some(id), Some(other)) => *id == *other,
        (Some(_), None) => false,
    }
}
