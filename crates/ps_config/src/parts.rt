//! What a configuration is made of: a field for each key, of the same name.
ghost use Rattle.std.specs.Prelude.{◌≡◌, ◌<◌, ◌≤◌, length};
ghost use Rattle.std.specs.List.{HoldsAt};
ghost use Rattle.ps_config.specs.Beginning.{HasWriterAt, changed_at, config_beginning, group_beginning, writer_beginning};
ghost use Rattle.ps_config.specs.Rooms.{header_settings};

use crate::header::HeaderSettings;
use arrayvec::ArrayVec;
use config_tables::{Layout, NumberingWord, Policy, Publisher, Security};
use dataset_meta::{Meta, Name32};
use std::alloc::AllocError;
use std::fmt::{self, Debug, Formatter, Write};
use std::marker::Model;

/// Parts in the order of the document. Contracts see them as a list.
#[derive(Debug, Drop)]
pub struct Parts<T> {
    parts: Vec<T>,
}

impl<T> Model for Parts<T> {
    ghost use Rattle.std.specs.Prelude.{List};

    ghost Value = { List T };

    ghost view = { λ p. p.parts.items };
}

impl<T> Parts<T> {
    ghost use Rattle.std.specs.Prelude.{◌≡◌};

    pub fn new(parts: Vec<T>) -> Parts<T>
        ensures { result ≡ parts.items }
    {
        Parts { parts }
    }

    pub fn as_slice(&self) -> &[T]
        ensures { result.now ≡ self.now }
    {
        &self.parts
    }

    pub fn into_vec(self) -> Vec<T>
        ensures { result.items ≡ self }
    {
        let Parts { parts } = self;
        parts
    }
}

impl<T: Clone> Clone for Parts<T> {
    ghost use Rattle.std.specs.List.{AllZip};

    ghost is_clone = { λ parts copy. AllZip T.is_clone parts copy };

    fn clone(&self) -> Result<Parts<T>, AllocError> {
        Ok(Parts::new(self.parts.clone()?))
    }
}

/// The bytes of an encrypting key, 16 or 32. They take no memory of their own.
#[derive(Drop)]
pub struct KeyBytes {
    bytes: ArrayVec<u8, 32>,
}

impl Model for KeyBytes {
    ghost use Rattle.std.specs.Prelude.{List, ℕ};

    ghost Value = { List ℕ };

    ghost view = { λ k. k.bytes.items };
}

impl KeyBytes {
    ghost use Rattle.std.specs.Prelude.{◌≡◌, ◌≤◌, length};

    pub fn new(bytes: &[u8]) -> KeyBytes
        requires { length bytes.now ≤ 32 }
        ensures { result ≡ bytes.now }
    {
        KeyBytes {
            bytes: array_of(bytes),
        }
    }

    pub fn as_bytes(&self) -> &[u8]
        ensures bytes { result.now ≡ self.now }
        ensures short { length result.now ≤ 32 }
    {
        self.bytes.as_slice()
    }

    /// The bytes, as a key set has them.
    pub fn to_array(&self) -> ArrayVec<u8, 32>
        ensures { result.items ≡ self.now }
    {
        array_of(self.as_bytes())
    }
}

impl Clone for KeyBytes {
    ghost use Rattle.std.specs.Prelude.{◌≡◌, ⊤};

    ghost is_clone = { λ bytes copy. copy ≡ bytes };

    ghost is_infallible = { λ _. ⊤ };

    fn clone(&self) -> Result<KeyBytes, AllocError> {
        Ok(KeyBytes::new(self.as_bytes()))
    }
}

/// The length alone is shown.
impl Debug for KeyBytes {
    ghost use Rattle.std.specs.Prelude.{◌++◌, codes, length, Some};
    ghost use Rattle.std.specs.Fmt.{decimal};

    ghost debug_output = { λ k. Some (codes "KeyBytes(" ++ decimal (length k) ++ codes ")") };

    fn fmt<W: Write>(&self, f: &mut Formatter<W>) -> fmt::Result {
        write!(f, "KeyBytes({})", self.as_bytes().len())
    }
}

fn array_of(bytes: &[u8]) -> ArrayVec<u8, 32>
    requires { length bytes.now ≤ 32 }
    ensures { result.items ≡ bytes.now }
{
    let mut room = ArrayVec::new();
    for byte in bytes {
        room.push(*byte);
    }
    room
}

/// The most writers of a configuration.
pub const MOST_WRITERS: usize = 16;

/// The most readers of a configuration.
pub const MOST_READERS: usize = 16;

/// A configuration (OPC 10000-14, PubSubConfiguration): a field for each table, of its name.
#[derive(Debug, Drop)]
pub struct Config {
    pub publisher: PublisherPart,
    /// The data sets, at most 8.
    pub dataset: Parts<Meta>,
    /// At most 4.
    pub keygroup: Parts<KeyGroupPart>,
    /// At most 4, with `MOST_WRITERS` in all.
    pub group: Parts<GroupPart>,
    /// At most 4, with `MOST_READERS` in all.
    pub readgroup: Parts<ReadGroupPart>,
}

impl Config {
    /// The writer with this index, in the group with this index, begins at this number (FirstNumber). Nothing else changes.
    pub fn begin_at(&mut self, group: u8, writer: u8, first_number: u16)
        requires { HasWriterAt group writer self.old }
        ensures { self.new ≡ config_beginning group writer first_number self.old }
    {
        begin_in(
            &mut self.group,
            usize::from(group),
            usize::from(writer),
            first_number,
        );
    }
}

/// The writer of the group at this place begins at this number.
fn begin_in(groups: &mut Parts<GroupPart>, group: usize, writer: usize, first_number: u16)
    requires group { group < length groups.old }
    requires writer { HoldsAt (λ part. writer < length part.writer) groups.old group }
    ensures { groups.new ≡ changed_at group (group_beginning writer first_number) groups.old }
{
    begin_writer(&mut groups.parts[group].writer, writer, first_number);
}

/// The writer at this place begins at this number.
fn begin_writer(writers: &mut Parts<WriterPart>, writer: usize, first_number: u16)
    requires { writer < length writers.old }
    ensures { writers.new ≡ changed_at writer (writer_beginning first_number) writers.old }
{
    writers.parts[writer].first_number = first_number;
}

impl Clone for Config {
    ghost use Rattle.std.specs.Prelude.{◌≡◌};

    ghost is_clone = { λ part copy. copy ≡ part };

    fn clone(&self) -> Result<Config, AllocError> {
        Ok(Config {
            publisher: self.publisher,
            dataset: self.dataset.clone()?,
            keygroup: self.keygroup.clone()?,
            group: self.group.clone()?,
            readgroup: self.readgroup.clone()?,
        })
    }
}

/// Who publishes.
#[derive(Clone, Copy, Debug)]
pub struct PublisherPart {
    pub id: Publisher,
    /// The UDP port on this host.
    pub port: u16,
}

/// The keys that groups share (OPC 10000-14, SecurityGroup).
#[derive(Debug, Drop)]
pub struct KeyGroupPart {
    pub name: Name32,
    pub policy: Policy,
    /// The random part of a sender's message nonces.
    pub random: [u8; 4],
    /// Where the block counter begins, 0 or 1.
    pub first_block: u32,
    /// How many numbers were used under the first token before.
    pub used: u32,
    /// At most 16, in the order of their tokens and moments.
    pub key: Parts<KeyPart>,
}

impl Clone for KeyGroupPart {
    ghost use Rattle.std.specs.Prelude.{◌≡◌};

    ghost is_clone = { λ part copy. copy ≡ part };

    fn clone(&self) -> Result<KeyGroupPart, AllocError> {
        Ok(KeyGroupPart {
            name: self.name,
            policy: self.policy,
            random: self.random,
            first_block: self.first_block,
            used: self.used,
            key: self.key.clone()?,
        })
    }
}

/// The keys of one token.
#[derive(Drop)]
pub struct KeyPart {
    /// The SecurityTokenId.
    pub token: u32,
    /// The moment from which the keys are used, in milliseconds.
    pub from: u64,
    /// The key of HMAC-SHA-256.
    pub signing: [u8; 32],
    /// The key of AES-128 or AES-256.
    pub encrypting: KeyBytes,
    /// The first four bytes of each counter block.
    pub nonce: [u8; 4],
}

impl Clone for KeyPart {
    ghost use Rattle.std.specs.Prelude.{◌≡◌};

    ghost is_clone = { λ part copy. copy ≡ part };

    fn clone(&self) -> Result<KeyPart, AllocError> {
        Ok(KeyPart {
            token: self.token,
            from: self.from,
            signing: self.signing,
            encrypting: self.encrypting.clone()?,
            nonce: self.nonce,
        })
    }
}

/// The keys aren't shown.
impl Debug for KeyPart {
    ghost use Rattle.std.specs.Prelude.{Some};
    ghost use Rattle.ps_config.specs.KeyTexts.{key_part};

    ghost debug_output = { λ key. Some (key_part key) };

    fn fmt<W: Write>(&self, f: &mut Formatter<W>) -> fmt::Result {
        write!(
            f,
            "KeyPart {{ token: {}, from: {}, .. }}",
            self.token, self.from
        )
    }
}

/// A group of writers (OPC 10000-14 6.2.6, WriterGroup).
#[derive(Debug, Drop)]
pub struct GroupPart {
    pub name: Name32,
    /// The WriterGroupId, not 0.
    pub id: u16,
    /// The PublishingInterval, in milliseconds.
    pub interval: u32,
    /// The MaxNetworkMessageSize, in bytes.
    pub max_size: u32,
    pub layout: Layout,
    pub security: Security,
    /// The index of the key group, where messages are secured.
    pub keygroup: Option<u8>,
    /// The GroupVersion, which is carried where it isn't 0.
    pub version: u32,
    /// Whether the SequenceNumber is carried.
    pub sequence: bool,
    /// Whether the NetworkMessageNumber is carried.
    pub message_number: bool,
    /// The DataSetClassId, in the order of the wire.
    pub class_id: Option<[u8; 16]>,
    pub writer: Parts<WriterPart>,
}

impl GroupPart {
    /// What the headers of its datagrams tell.
    pub fn header_settings(&self) -> HeaderSettings
        ensures { result ≡ header_settings self.now }
    {
        HeaderSettings {
            id: self.id,
            version: self.version,
            sequence: self.sequence,
            message_number: self.message_number,
            class_id: self.class_id,
            security: self.security,
        }
    }
}

impl Clone for GroupPart {
    ghost use Rattle.std.specs.Prelude.{◌≡◌};

    ghost is_clone = { λ part copy. copy ≡ part };

    fn clone(&self) -> Result<GroupPart, AllocError> {
        Ok(GroupPart {
            name: self.name,
            id: self.id,
            interval: self.interval,
            max_size: self.max_size,
            layout: self.layout,
            security: self.security,
            keygroup: self.keygroup,
            version: self.version,
            sequence: self.sequence,
            message_number: self.message_number,
            class_id: self.class_id,
            writer: self.writer.clone()?,
        })
    }
}

/// A data set's writer (OPC 10000-14 6.2.4, DataSetWriter).
#[derive(Clone, Copy, Debug)]
pub struct WriterPart {
    pub name: Name32,
    /// The DataSetWriterId, not 0.
    pub id: u16,
    /// The index of the data set that it writes.
    pub dataset: u8,
    /// The KeyFrameCount, not 0.
    pub key_frame_count: u32,
    /// The KeepAliveTime, in milliseconds; 0 for none.
    pub keep_alive: u64,
    /// The number of the first message.
    pub first_number: u16,
    /// Whether major and minor version are carried.
    pub versions: bool,
    /// Where the slot begins in a fixed group, in bytes from the datagram's first.
    pub offset: u32,
    /// How many bytes the slot has.
    pub size: u32,
}

/// Readers of one publisher's groups (OPC 10000-14 6.2.8, ReaderGroup).
#[derive(Debug, Drop)]
pub struct ReadGroupPart {
    pub name: Name32,
    pub publisher: Publisher,
    /// The WriterGroupId, 0 for any.
    pub group: u16,
    /// The GroupVersion, 0 for any.
    pub version: u32,
    /// The DataSetClassId, in the order of the wire; any where there is none.
    pub class_id: Option<[u8; 16]>,
    pub layout: Layout,
    pub security: Security,
    /// The index of the key group, where messages are secured.
    pub keygroup: Option<u8>,
    pub reader: Parts<ReaderPart>,
}

impl Clone for ReadGroupPart {
    ghost use Rattle.std.specs.Prelude.{◌≡◌};

    ghost is_clone = { λ part copy. copy ≡ part };

    fn clone(&self) -> Result<ReadGroupPart, AllocError> {
        Ok(ReadGroupPart {
            name: self.name,
            publisher: self.publisher,
            group: self.group,
            version: self.version,
            class_id: self.class_id,
            layout: self.layout,
            security: self.security,
            keygroup: self.keygroup,
            reader: self.reader.clone()?,
        })
    }
}

/// A data set's reader (OPC 10000-14 6.2.9, DataSetReader).
#[derive(Clone, Copy, Debug)]
pub struct ReaderPart {
    pub name: Name32,
    /// The DataSetWriterId of the writer that it reads, not 0.
    pub writer: u16,
    /// The index of the data set that it reads.
    pub dataset: u8,
    /// The MessageReceiveTimeout, in milliseconds; 0 for none.
    pub timeout: u64,
    pub numbering: NumberingWord,
    /// Where the slot begins in a fixed read group, in bytes from the datagram's first.
    pub offset: u32,
    /// How many bytes the slot has.
    pub size: u32,
}
