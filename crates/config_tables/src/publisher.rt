//! Publishers, as they are spelled.
ghost use Rattle.std.specs.Prelude.{◌≡◌, ◌≤◌, option_map, option_and_then, IfSome};
ghost use Rattle.std.specs.List.{list_all};
ghost use Rattle.config_tables.specs.Texts.{after, number_after, is_printable, is_id, id_spelled, publisher_named, width_of, is_same_publisher};

use crate::number::number_spelled;
use ua_values::Text;

/// Who publishes (OPC 10000-14 7.2.4.4, PublisherId). A text is 1 to 64 bytes from `!` to `~`.
#[derive(Clone, Copy, Debug, PartialEq, Eq)]
pub enum Publisher {
    U8(u8),
    U16(u16),
    U32(u32),
    U64(u64),
    Text(Text),
}

impl Publisher {
    pub fn named(text: &str) -> Option<Publisher>
        ensures { result ≡ publisher_named text.now }
    {
        let bytes = text.as_bytes();
        if let Some(n) = number_after(bytes, b"u8:", 255) {
            return Some(Publisher::U8(n as u8));
        }
        if let Some(n) = number_after(bytes, b"u16:", 65535) {
            return Some(Publisher::U16(n as u16));
        }
        if let Some(n) = number_after(bytes, b"u32:", 4294967295) {
            return Some(Publisher::U32(n as u32));
        }
        if let Some(n) = number_after(bytes, b"u64:", 18446744073709551615) {
            return Some(Publisher::U64(n));
        }
        match after(bytes, b"text:") {
            Some(rest) => match id_spelled(rest) {
                Some(id) => Some(Publisher::Text(id)),
                None => None,
            },
            None => None,
        }
    }

    /// How many bytes it takes in a datagram.
    pub fn width(&self) -> u64
        ensures width { result ≡ width_of self.now }
        ensures bound { result ≤ 260 }
    {
        match self {
            Publisher::U8(_) => 1,
            Publisher::U16(_) => 2,
            Publisher::U32(_) => 4,
            Publisher::U64(_) => 8,
            Publisher::Text(text) => 4 + text.as_bytes().len() as u64,
        }
    }

    /// Whether both are one publisher.
    pub fn is_same(&self, other: &Publisher) -> bool
        ensures { result ≡ is_same_publisher self.now other.now }
    {
        match (self, other) {
            (Publisher::U8(id), Publisher::U8(other)) => *id == *other,
            (Publisher::U16(id), Publisher::U16(other)) => *id == *other,
            (Publisher::U32(id), Publisher::U32(other)) => *id == *other,
            (Publisher::U64(id), Publisher::U64(other)) => *id == *other,
            (Publisher::Text(text), Publisher::Text(other)) => text.as_bytes() == other.as_bytes(),
            _ => false,
        }
    }
}

fn number_after(text: &[u8], word: &[u8], most: u64) -> Option<u64>
    ensures number { result ≡ number_after word.now most text.now }
    ensures bound { IfSome result (λ n. n ≤ most) }
{
    match after(text, word) {
        Some(digits) => number_spelled(digits, most),
        None => None,
    }
}

fn after<'a>(text: &'a [u8], word: &[u8]) -> Option<&'a [u8]>
    ensures { option_map (λ rest. rest.now) result ≡ after word.now text.now }
{
    text.strip_prefix(word)
}

fn id_spelled(text: &[u8]) -> Option<Text>
    ensures { result ≡ id_spelled text.now }
{
    if !is_id(text) {
        return None;
    }
    Text::from_bytes(text).ok()
}

fn is_id(text: &[u8]) -> bool
    ensures { result ≡ is_id text.now }
{
    1 <= text.len() && (text.len() <= 64 && are_printable(text))
}

fn are_printable(text: &[u8]) -> bool
    ensures { result ≡ list_all is_printable text.now }
{
    text.iter().all(|byte| is_printable(*byte))
}

fn is_printable(byte: u8) -> bool
    ensures { result ≡ is_printable byte }
{
    33 <= byte && byte <= 126
}
