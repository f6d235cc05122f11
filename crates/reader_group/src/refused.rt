//! What a read group tells of the datagrams that it refused.
ghost use Rattle.std.specs.Prelude.{◌≡◌, ℕ, List};
ghost use Rattle.uadp_header.specs.Reading.{GivesHeader};
ghost use Rattle.uadp_header.specs.Headers.{header_in, if_there, publisher_in};
ghost use Rattle.uadp_header.specs.Layout.{header_at};
ghost use Rattle.dataset_reader.specs.Passed.{one_more};
ghost use Rattle.reader_group.specs.Refused.{kept_if, publisher_kept, sender_in, sender_read, sender_of, last_refusal_of};

use crate::refusal::{Refusal, Taken};
use ps_config::Publisher;
use ua_values::Text;
use uadp_header::{Header, HeaderFault, PublisherId, read_header};

/// Whose a datagram is, as its header tells (OPC 10000-14 7.2.4.4). Each is None where the header doesn't carry it.
#[derive(Clone, Copy, Debug, PartialEq, Eq)]
pub struct Sender {
    /// The PublisherId. It is None also where it is a text of more than 256 bytes.
    pub publisher: Option<Publisher>,
    /// The WriterGroupId.
    pub group: Option<u16>,
    /// The GroupVersion.
    pub version: Option<u32>,
    /// The NetworkMessageNumber.
    pub number: Option<u16>,
    /// The DataSetClassId, a Guid's bytes in the order of the wire.
    pub class_id: Option<[u8; 16]>,
}

/// A refusal, and whose datagram it was.
#[derive(Clone, Copy, Debug, PartialEq, Eq)]
pub struct LastRefusal {
    /// Why the datagram wasn't taken.
    pub refusal: Refusal,
    /// What its header carried, where the refusal is `NotOurs`. Any other refusal has None.
    pub sender: Option<Sender>,
}

/// What a read group refused since it was made.
#[derive(Clone, Copy, Debug, Default, PartialEq, Eq)]
pub struct Refused {
    /// The last refusal.
    pub last: Option<LastRefusal>,
    /// How many datagrams were refused. The count stands at 2^64 - 1.
    pub count: u64,
}

impl Refused {
    ghost use Rattle.std.specs.Prelude.{ℕ, List, Err};
    ghost use Rattle.reader_group.specs.Refused.{none_refused, refused_on};

    /// Keeps what was answered to a datagram, if that is a refusal.
    pub(crate) fn note(&mut self, answer: &Result<Taken, Refusal>, datagram: &[u8])
        ensures { self.new ≡ refused_on self.old answer.now datagram.now }
    {
        match answer {
            Ok(_) => {}
            Err(refusal) => {
                self.last = Some(last_refusal_of(*refusal, datagram));
                self.count = one_more(self.count);
            }
        }
    }

    /// Keeps this refusal of a datagram whose header was read so.
    pub(crate) fn note_read(
        &mut self,
        refusal: Refusal,
        read: &Result<(Header<'_>, usize), HeaderFault>,
    )
        ensures { (datagram : List ℕ) → GivesHeader read.now datagram
            → self.new ≡ refused_on self.old (Err refusal) datagram }
    {
        self.last = Some(last_refusal_read(refusal, read));
        self.count = one_more(self.count);
    }
}

/// The same of a datagram whose header was read so.
fn last_refusal_read(
    refusal: Refusal,
    read: &Result<(Header<'_>, usize), HeaderFault>,
) -> LastRefusal
    ensures { (datagram : List ℕ) → GivesHeader read.now datagram
        → result ≡ last_refusal_of refusal datagram }
{
    LastRefusal {
        refusal,
        sender: sender_if(refusal, read),
    }
}

fn sender_if(refusal: Refusal, read: &Result<(Header<'_>, usize), HeaderFault>) -> Option<Sender>
    ensures { (datagram : List ℕ) → GivesHeader read.now datagram
        → result ≡ sender_of refusal datagram }
{
    match (refusal, read) {
        (Refusal::NotOurs, Ok((header, _))) => Some(sender_in(header)),
        _ => None,
    }
}

fn last_refusal_of(refusal: Refusal, datagram: &[u8]) -> LastRefusal
    ensures { result ≡ last_refusal_of refusal datagram.now }
{
    LastRefusal {
        refusal,
        sender: sender_of(refusal, datagram),
    }
}

fn sender_of(refusal: Refusal, datagram: &[u8]) -> Option<Sender>
    ensures { result ≡ sender_of refusal datagram.now }
{
    match refusal {
        Refusal::NotOurs => read_sender(datagram),
        Refusal::Header(_) | Refusal::NoIds | Refusal::Guard(_) | Refusal::BadSizes => None,
    }
}

fn read_sender(datagram: &[u8]) -> Option<Sender>
    ensures { result ≡ sender_read (header_at datagram.now) }
{
    match read_header(datagram) {
        Ok((header, _)) => Some(sender_in(&header)),
        Err(_) => None,
    }
}

fn sender_in(header: &Header<'_>) -> Sender
    ensures { result ≡ sender_in (header_in header.now) }
{
    Sender {
        publisher: kept_if(&header.publisher),
        group: header.group,
        version: header.version,
        number: header.message_number,
        class_id: header.class_id,
    }
}

fn kept_if(carried: &Option<PublisherId<'_>>) -> Option<Publisher>
    ensures { result ≡ kept_if (if_there publisher_in carried.now) }
{
    match carried {
        Some(id) => publisher_kept(id),
        None => None,
    }
}

fn publisher_kept(id: &PublisherId<'_>) -> Option<Publisher>
    ensures { result ≡ publisher_kept (publisher_in id.now) }
{
    match id {
        PublisherId::U8(id) => Some(Publisher::U8(*id)),
        PublisherId::U16(id) => Some(Publisher::U16(*id)),
        PublisherId::U32(id) => Some(Publisher::U32(*id)),
        PublisherId::U64(id) => Some(Publisher::U64(*id)),
        PublisherId::Text(text) => match Text::from_bytes(text.as_bytes()) {
            Ok(text) => Some(Publisher::Text(text)),
            Err(_) => None,
        },
    }
}

fn one_more(count: u64) -> u64
    ensures { result ≡ one_more count }
{
    count.saturating_add(1)
}
