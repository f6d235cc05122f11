//! Headers from words.
use case_lines::{Line, LineFault, bytes_of, number, parted};
use std::alloc::Global;
use uadp_header::{Header, Ids, PublisherId, SecurityPart};

/// The parts of a header, with the memory that a `Header` lends.
#[derive(Drop)]
pub struct HeaderParts {
    publisher: Option<Publisher>,
    class_id: Option<[u8; 16]>,
    group: Option<u16>,
    version: Option<u32>,
    message_number: Option<u16>,
    sequence: Option<u16>,
    ids: WriterIds,
    security: Option<Security>,
}

#[derive(Drop)]
enum Publisher {
    U8(u8),
    U16(u16),
    U32(u32),
    U64(u64),
    Text(Vec<u8>),
}

#[derive(Drop)]
enum WriterIds {
    None,
    List(Vec<u8>),
    Chunk(u16),
}

/// A security header, with the memory that a `SecurityPart` lends.
#[derive(Drop)]
pub struct Security {
    signed: bool,
    encrypted: bool,
    footer: bool,
    reset: bool,
    token: u32,
    nonce: Vec<u8>,
}

impl HeaderParts {
    /// The parts that the words name: `id=u8:N`, `u16`, `u32`, `u64` or `text:BYTES`, `class=BYTES`, `group=N`, `version=N`,
    /// `number=N`, `sequence=N`, `ids=list:BYTES` or `ids=chunk:N`, and `security=FLAGS:TOKEN:NONCE` with the flags of s, e, f, r.
    pub fn parse(alloc: Global, line: &Line) -> Result<HeaderParts, LineFault> {
        let mut parts = HeaderParts {
            publisher: None,
            class_id: None,
            group: None,
            version: None,
            message_number: None,
            sequence: None,
            ids: WriterIds::None,
            security: None,
        };
        for word in line.words() {
            let (part, text) = parted(word, '=')?;
            parts.take(alloc, part, text)?;
        }
        Ok(parts)
    }

    fn take(&mut self, alloc: Global, part: &str, text: &str) -> Result<(), LineFault> {
        match part {
            "id" => self.publisher = Some(publisher_of(alloc, text)?),
            "class" => self.class_id = bytes_of(alloc, text)?.first_chunk::<16>().copied(),
            "group" => self.group = Some(number(text)?),
            "version" => self.version = Some(number(text)?),
            "number" => self.message_number = Some(number(text)?),
            "sequence" => self.sequence = Some(number(text)?),
            "ids" => self.ids = ids_of(alloc, text)?,
            "security" => self.security = Some(security_of(alloc, text)?),
            _ => return Err(LineFault::Missing),
        }
        Ok(())
    }

    pub fn header(&self) -> Header<'_> {
        let publisher = match &self.publisher {
            Some(publisher) => Some(publisher.id()),
            None => None,
        };
        let security = match &self.security {
            Some(security) => Some(security.part()),
            None => None,
        };
        Header {
            publisher,
            class_id: self.class_id,
            group: self.group,
            version: self.version,
            message_number: self.message_number,
            sequence: self.sequence,
            ids: self.ids.ids(),
            security,
        }
    }
}

impl Publisher {
    fn id(&self) -> PublisherId<'_> {
        match self {
            Publisher::U8(id) => PublisherId::U8(*id),
            Publisher::U16(id) => PublisherId::U16(*id),
            Publisher::U32(id) => PublisherId::U32(*id),
            Publisher::U64(id) => PublisherId::U64(*id),
            Publisher::Text(bytes) => PublisherId::Text(str::from_utf8(bytes).unwrap_or("")),
        }
    }
}

impl WriterIds {
    fn ids(&self) -> Ids<'_> {
        match self {
            WriterIds::None => Ids::None,
            WriterIds::List(bytes) => Ids::List(bytes),
            WriterIds::Chunk(id) => Ids::Chunk(*id),
        }
    }
}

impl Security {
    /// The flags are the letters `s`, `e`, `f` and `r`.
    pub fn read(
        alloc: Global,
        flags: &str,
        token: &str,
        nonce: &str,
    ) -> Result<Security, LineFault> {
        Ok(Security {
            signed: flags.contains('s'),
            encrypted: flags.contains('e'),
            footer: flags.contains('f'),
            reset: flags.contains('r'),
            token: number(token)?,
            nonce: bytes_of(alloc, nonce)?,
        })
    }

    pub fn part(&self) -> SecurityPart<'_> {
        SecurityPart {
            signed: self.signed,
            encrypted: self.encrypted,
            footer: self.footer,
            reset: self.reset,
            token: self.token,
            nonce: &self.nonce,
        }
    }
}

fn publisher_of(alloc: Global, text: &str) -> Result<Publisher, LineFault> {
    let (kind, id) = parted(text, ':')?;
    match kind {
        "u8" => Ok(Publisher::U8(number(id)?)),
        "u16" => Ok(Publisher::U16(number(id)?)),
        "u32" => Ok(Publisher::U32(number(id)?)),
        "u64" => Ok(Publisher::U64(number(id)?)),
        "text" => Ok(Publisher::Text(bytes_of(alloc, id)?)),
        _ => Err(LineFault::Missing),
    }
}

fn ids_of(alloc: Global, text: &str) -> Result<WriterIds, LineFault> {
    let (kind, ids) = parted(text, ':')?;
    match kind {
        "list" => Ok(WriterIds::List(bytes_of(alloc, ids)?)),
        "chunk" => Ok(WriterIds::Chunk(number(ids)?)),
        _ => Err(LineFault::Missing),
    }
}

fn security_of(alloc: Global, text: &str) -> Result<Security, LineFault> {
    let (flags, rest) = parted(text, ':')?;
    let (token, nonce) = parted(rest, ':')?;
    Security::read(alloc, flags, token, nonce)
}
