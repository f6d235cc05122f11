//! Class ids and hexadecimal digits, as they are spelled.
ghost use Rattle.std.specs.Prelude.{◌≡◌, not};
ghost use Rattle.std.specs.Char.{is_ascii_uppercase};
ghost use Rattle.std.specs.List.{list_all};
ghost use Rattle.config_tables.specs.Texts.{wire_of, is_plain, guid_spelled, hex_bytes};

use hex::FromHex;
use uuid::Uuid;

/// The bytes on the wire of the Guid that a text spells.
pub fn guid_spelled(text: &str) -> Option<[u8; 16]>
    ensures { result ≡ guid_spelled text.now }
{
    if !is_plain(text) {
        return None;
    }
    match Uuid::parse_str(text) {
        Ok(id) => Some(wire_of(&id)),
        Err(_) => None,
    }
}

fn is_plain(text: &str) -> bool
    ensures { result ≡ is_plain text.now }
{
    text.len() == 36 && has_no_capital(text.as_bytes())
}

fn has_no_capital(text: &[u8]) -> bool
    ensures { result ≡ list_all (λ byte. not (is_ascii_uppercase byte)) text.now }
{
    text.iter().all(|byte| !byte.is_ascii_uppercase())
}

fn wire_of(id: &Uuid) -> [u8; 16]
    ensures { result ≡ wire_of id.now }
{
    let [a, b, c, d, e, f, g, h, i, j, k, l, m, n, o, p] = *id.as_bytes();
    [d, c, b, a, f, e, h, g, i, j, k, l, m, n, o, p]
}

/// The bytes of so many pairs of hexadecimal digits, zeros where the text isn't such.
pub fn hex_bytes<const N: usize>(text: &str) -> [u8; N]
    ensures { result ≡ hex_bytes N text.now }
{
    match <[u8; N] as FromHex>::from_hex(text) {
        Ok(bytes) => bytes,
        Err(_) => [0; N],
    }
}
