//! The parts of a message.
use crate::message::JsonPart;
use std::marker::Model;

/// Parts in the order of their message. Contracts see them as a list.
#[derive(Debug, Drop)]
pub struct JsonParts {
    parts: Vec<JsonPart>,
}

impl Model for JsonParts {
    ghost use Rattle.std.specs.Prelude.{List};
    ghost use Rattle.json_frames.specs.declared.message.JsonPart.{JsonPart};

    ghost Value = { List JsonPart };

    ghost view = { λ p. p.parts.items };
}

impl JsonParts {
    ghost use Rattle.std.specs.Prelude.{◌≡◌};

    pub fn new(parts: Vec<JsonPart>) -> JsonParts
        ensures { result ≡ parts.items }
    {
        JsonParts { parts }
    }

    pub fn as_slice(&self) -> &[JsonPart]
        ensures { result.now ≡ self.now }
    {
        &self.parts
    }

    pub fn into_vec(self) -> Vec<JsonPart>
        ensures { result.items ≡ self }
    {
        let JsonParts { parts } = self;
        parts
    }
}
