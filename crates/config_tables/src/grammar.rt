//! The keys of each table: which have to be there, and what stands at them.
ghost use Rattle.std.specs.Prelude.{◌≡◌};
ghost use Rattle.config_tables.specs.Grammar.{rows_of};

use crate::key::Key;
use crate::place::{Part, Place};

/// The words of which one stands at a key.
#[derive(Clone, Copy, Debug, PartialEq, Eq)]
pub enum Choice {
    Kind,
    Policy,
    Layout,
    Security,
    Numbering,
}

/// How a text is spelled.
#[derive(Clone, Copy, Debug, PartialEq, Eq)]
pub enum Spelling {
    Name,
    /// The name of an element of this array.
    Reference(Part),
    Publisher,
    Word(Choice),
    Guid,
    /// This many hexadecimal digits.
    Hex(usize),
    /// As many hexadecimal digits as the policy of the key group wants.
    KeyHex,
}

/// What stands at a key.
#[derive(Clone, Copy, Debug, PartialEq, Eq)]
pub enum Form {
    Truth,
    /// The least and the greatest number.
    Number(i64, i64),
    Text(Spelling),
    Table,
    /// An array of tables.
    Tables,
}

/// A key of a table.
#[derive(Clone, Copy, Debug, PartialEq, Eq)]
pub struct Row {
    pub key: Key,
    pub is_required: bool,
    pub form: Form,
}

macro_rules! row {
    (required $key:ident, $form:expr) => {
        Row {
            key: Key::$key,
            is_required: true,
            form: $form,
        }
    };
    (optional $key:ident, $form:expr) => {
        Row {
            key: Key::$key,
            is_required: false,
            form: $form,
        }
    };
}

const ROOT: [Row; 5] = [
    row!(required Publisher, Form::Table),
    row!(optional DataSet, Form::Tables),
    row!(optional KeyGroup, Form::Tables),
    row!(optional Group, Form::Tables),
    row!(optional ReadGroup, Form::Tables),
];

const PUBLISHER: [Row; 2] = [
    row!(required Id, Form::Text(Spelling::Publisher)),
    row!(optional Port, Form::Number(0, 65535)),
];

const DATA_SET: [Row; 5] = [
    row!(required Name, Form::Text(Spelling::Name)),
    row!(optional Major, Form::Number(0, 4294967295)),
    row!(optional Minor, Form::Number(0, 4294967295)),
    row!(optional Quality, Form::Truth),
    row!(optional Field, Form::Tables),
];

const FIELD: [Row; 3] = [
    row!(required Name, Form::Text(Spelling::Name)),
    row!(required Kind, Form::Text(Spelling::Word(Choice::Kind))),
    row!(optional Cap, Form::Number(1, 256)),
];

const KEY_GROUP: [Row; 6] = [
    row!(required Name, Form::Text(Spelling::Name)),
    row!(required Policy, Form::Text(Spelling::Word(Choice::Policy))),
    row!(required Random, Form::Text(Spelling::Hex(8))),
    row!(optional FirstBlock, Form::Number(0, 1)),
    row!(optional Used, Form::Number(0, 4294967295)),
    row!(optional Key, Form::Tables),
];

const KEY: [Row; 5] = [
    row!(required Token, Form::Number(0, 4294967295)),
    row!(required From, Form::Number(0, 1099511627776)),
    row!(required Signing, Form::Text(Spelling::Hex(64))),
    row!(required Encrypting, Form::Text(Spelling::KeyHex)),
    row!(required Nonce, Form::Text(Spelling::Hex(8))),
];

const GROUP: [Row; 12] = [
    row!(required Name, Form::Text(Spelling::Name)),
    row!(required Id, Form::Number(1, 65535)),
    row!(required Interval, Form::Number(1, 3600000)),
    row!(optional MaxSize, Form::Number(128, 65000)),
    row!(optional Layout, Form::Text(Spelling::Word(Choice::Layout))),
    row!(optional Security, Form::Text(Spelling::Word(Choice::Security))),
    row!(optional KeyGroup, Form::Text(Spelling::Reference(Part::KeyGroup))),
    row!(optional Version, Form::Number(0, 4294967295)),
    row!(optional Sequence, Form::Truth),
    row!(optional MessageNumber, Form::Truth),
    row!(optional ClassId, Form::Text(Spelling::Guid)),
    row!(optional Writer, Form::Tables),
];

const WRITER: [Row; 9] = [
    row!(required Name, Form::Text(Spelling::Name)),
    row!(required Id, Form::Number(1, 65535)),
    row!(required DataSet, Form::Text(Spelling::Reference(Part::DataSet))),
    row!(optional KeyFrameCount, Form::Number(1, 65535)),
    row!(optional KeepAlive, Form::Number(0, 3600000)),
    row!(optional FirstNumber, Form::Number(0, 65535)),
    row!(optional Versions, Form::Truth),
    row!(optional Offset, Form::Number(0, 65000)),
    row!(optional Size, Form::Number(0, 65000)),
];

const READ_GROUP: [Row; 9] = [
    row!(required Name, Form::Text(Spelling::Name)),
    row!(required Publisher, Form::Text(Spelling::Publisher)),
    row!(optional Group, Form::Number(0, 65535)),
    row!(optional Version, Form::Number(0, 4294967295)),
    row!(optional ClassId, Form::Text(Spelling::Guid)),
    row!(optional Layout, Form::Text(Spelling::Word(Choice::Layout))),
    row!(optional Security, Form::Text(Spelling::Word(Choice::Security))),
    row!(optional KeyGroup, Form::Text(Spelling::Reference(Part::KeyGroup))),
    row!(optional Reader, Form::Tables),
];

const READER: [Row; 7] = [
    row!(required Name, Form::Text(Spelling::Name)),
    row!(required Writer, Form::Number(1, 65535)),
    row!(required DataSet, Form::Text(Spelling::Reference(Part::DataSet))),
    row!(optional Timeout, Form::Number(0, 3600000)),
    row!(optional Numbering, Form::Text(Spelling::Word(Choice::Numbering))),
    row!(optional Offset, Form::Number(0, 65000)),
    row!(optional Size, Form::Number(0, 65000)),
];

/// The keys of the table at this place.
pub fn rows_of(place: Place) -> &'static [Row]
    ensures { result.now ≡ rows_of place }
{
    match place {
        Place::Root => &ROOT,
        Place::Publisher => &PUBLISHER,
        Place::Outer(Part::DataSet, _) => &DATA_SET,
        Place::Inner(Part::DataSet, _, _) => &FIELD,
        Place::Outer(Part::KeyGroup, _) => &KEY_GROUP,
        Place::Inner(Part::KeyGroup, _, _) => &KEY,
        Place::Outer(Part::Group, _) => &GROUP,
        Place::Inner(Part::Group, _, _) => &WRITER,
        Place::Outer(Part::ReadGroup, _) => &READ_GROUP,
        Place::Inner(Part::ReadGroup, _, _) => &READER,
    }
}
