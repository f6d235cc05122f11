//! The words of which one stands at a key.

use ua_values::Kind;

/// How long the encrypting keys of a key group are: 16 bytes, or 32 (OPC 10000-7,
/// PubSub-Aes128-CTR and PubSub-Aes256-CTR).
#[derive(Clone, Copy, Debug, PartialEq, Eq)]
pub enum Policy {
    Aes128,
    Aes256,
}

/// Whether DataSetMessages stand where they happen to come, or in slots (OPC 10000-14, dynamic and
/// fixed data layout).
#[derive(Clone, Copy, Debug, PartialEq, Eq)]
pub enum Layout {
    Dynamic,
    Fixed,
}

/// What is done to protect a NetworkMessage (OPC 10000-14, MessageSecurityMode).
#[derive(Clone, Copy, Debug, PartialEq, Eq)]
pub enum Security {
    None,
    Sign,
    Encrypt,
}

/// Whether a reader goes by the SequenceNumbers of DataSetMessages.
#[derive(Clone, Copy, Debug, PartialEq, Eq)]
pub enum NumberingWord {
    Message,
    None,
}

ghost use Rattle.std.specs.Prelude.{◌≡◌};
ghost use Rattle.config_tables.specs.Words.{policy_named, layout_named, security_named, numbering_named, kind_named, kind_text};

impl Policy {
    pub fn named(word: &str) -> Option<Policy>
        ensures { result ≡ policy_named word.now }
    {
        if word == "aes128" {
            return Some(Policy::Aes128);
        }
        if word == "aes256" {
            return Some(Policy::Aes256);
        }
        None
    }
}

impl Layout {
    pub fn named(word: &str) -> Option<Layout>
        ensures { result ≡ layout_named word.now }
    {
        if word == "dynamic" {
            return Some(Layout::Dynamic);
        }
        if word == "fixed" {
            return Some(Layout::Fixed);
        }
        None
    }
}

impl Security {
    pub fn named(word: &str) -> Option<Security>
        ensures { result ≡ security_named word.now }
    {
        match word {
            "none" => Some(Security::None),
            "sign" => Some(Security::Sign),
            "encrypt" => Some(Security::Encrypt),
            _ => None,
        }
    }
}

impl NumberingWord {
    pub fn named(word: &str) -> Option<NumberingWord>
        ensures { result ≡ numbering_named word.now }
    {
        match word {
            "message" => Some(NumberingWord::Message),
            "none" => Some(NumberingWord::None),
            _ => None,
        }
    }
}

// All kinds, in the order in which they are declared.
const KINDS: [Kind; 16] = [
    Kind::Boolean,
    Kind::SByte,
    Kind::Byte,
    Kind::Int16,
    Kind::UInt16,
    Kind::Int32,
    Kind::UInt32,
    Kind::Int64,
    Kind::UInt64,
    Kind::Float,
    Kind::Double,
    Kind::String,
    Kind::DateTime,
    Kind::Guid,
    Kind::ByteString,
    Kind::StatusCode,
];

pub fn kind_named(word: &str) -> Option<Kind>
    ensures { result ≡ kind_named word.now }
{
    KINDS.iter().copied().find(|kind| word == kind_text(*kind))
}

fn kind_text(kind: Kind) -> &'static str
    ensures { result.now ≡ kind_text kind }
{
    match kind {
        Kind::Boolean => "Boolean",
        Kind::SByte => "SByte",
        Kind::Byte => "Byte",
        Kind::Int16 => "Int16",
        Kind::UInt16 => "UInt16",
        Kind::Int32 => "Int32",
        Kind::UInt32 => "UInt32",
        Kind::Int64 => "Int64",
        Kind::UInt64 => "UInt64",
        Kind::Float => "Float",
        Kind::Double => "Double",
        Kind::String => "String",
        Kind::DateTime => "DateTime",
        Kind::Guid => "Guid",
        Kind::ByteString => "ByteString",
        Kind::StatusCode => "StatusCode",
    }
}
