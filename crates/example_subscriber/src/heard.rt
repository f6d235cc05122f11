//! What a datagram's header tells of it.
use uadp_header::{Header, Ids, SecurityPart, read_header};

/// What is told of a datagram beside what the read group answers.
#[derive(Clone, Copy)]
pub struct Heard {
    /// How many bytes it has.
    pub bytes: u64,
    /// How it is secured, in the words of a configuration.
    pub mode: &'static str,
    /// The token and the number of its security header, 0 where there is none.
    pub token: u64,
    pub number: u64,
    /// The first writer whose message it has, as its PayloadHeader tells.
    pub writer: Option<u16>,
    /// Whether it is a chunk of a message of this writer.
    pub is_chunk: bool,
}

impl Heard {
    pub const NOTHING: Heard = Heard {
        bytes: 0,
        mode: "none",
        token: 0,
        number: 0,
        writer: None,
        is_chunk: false,
    };

    pub fn of(datagram: &[u8]) -> Heard {
        let mut heard = Heard::NOTHING;
        heard.bytes = datagram.len() as u64;
        if let Ok((header, _)) = read_header(datagram) {
            heard.note(&header);
        }
        heard
    }

    fn note(&mut self, header: &Header<'_>) {
        if let Some(security) = &header.security {
            self.mode = mode_of(security);
            self.token = u64::from(security.token);
            self.number = number_in(security.nonce);
        }
        self.writer = first_of(&header.ids);
        self.is_chunk = matches!(header.ids, Ids::Chunk(_));
    }
}

fn mode_of(security: &SecurityPart<'_>) -> &'static str {
    match (security.signed, security.encrypted) {
        (false, false) => "none",
        (true, false) => "sign",
        (true, true) => "encrypt",
        (false, true) => "encrypt without sign",
    }
}

/// The number in a nonce (OPC 10000-14 7.2.4.4.3): its last four bytes of eight, little-endian.
fn number_in(nonce: &[u8]) -> u64 {
    match nonce {
        [_, _, _, _, a, b, c, d] => u64::from(u32::from_le_bytes([*a, *b, *c, *d])),
        _ => 0,
    }
}

/// The first writer's id of a PayloadHeader.
fn first_of(ids: &Ids<'_>) -> Option<u16> {
    match ids {
        Ids::None => None,
        Ids::Chunk(writer) => Some(*writer),
        Ids::List([low, high, ..]) => Some(u16::from_le_bytes([*low, *high])),
        Ids::List(_) => None,
    }
}
