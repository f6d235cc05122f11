//! Lines.
ghost use Rattle.std.specs.Prelude.{IsOk};
ghost use Rattle.json_frames.specs.Documents.{document};

use std::marker::Model;

/// A message in the JSON mapping: its bytes, in UTF-8, without a line feed, which are a document that is refused for nothing.
/// Contracts see it as their list.
#[derive(Debug, Drop)]
pub struct JsonLine {
    bytes: Vec<u8>,
    ghost accepted: { IsOk (document bytes.items) },
}

impl Model for JsonLine {
    ghost use Rattle.std.specs.Prelude.{List, ℕ};

    ghost Value = { List ℕ };

    ghost view = { λ l. l.bytes.items };
}

impl JsonLine {
    ghost use Rattle.std.specs.Prelude.{◌≡◌};

    pub(crate) fn new(bytes: Vec<u8>) -> JsonLine
        requires { IsOk (document bytes.items) }
        ensures { result ≡ bytes.items }
    {
        JsonLine { bytes }
    }

    pub fn as_bytes(&self) -> &[u8]
        ensures bytes { result.now ≡ self.now }
        ensures accepted { IsOk (document result.now) }
    {
        &self.bytes
    }
}
