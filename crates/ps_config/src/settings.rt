//! What the keys of a table say, with the default beside each.
ghost use Rattle.std.specs.Prelude.{◌≡◌, map};
ghost use Rattle.std.specs.Option.{option_map_or};
ghost use Rattle.toml.specs.Data.{no_members};
ghost use Rattle.toml.specs.View.{table_view};
ghost use Rattle.config_tables.specs.Seen.{seen};
ghost use Rattle.config_tables.specs.declared.key.Key.TheVariants.{Id};
ghost use Rattle.ps_config.specs.Fields.{publisher_members};
ghost use Rattle.ps_config.specs.Settings.{layout_at, security_at, policy_at, numbering_at, publisher_at, class_id_at, settings_at};

use crate::header::HeaderSettings;
use config_tables::{
    Key, Layout, NumberingWord, Place, Placed, Policy, Publisher, Security, guid_spelled,
    number_of, text_if, text_of, truth_of,
};
use toml::Table;

pub(crate) const MAX_16: u64 = 65535;

pub(crate) const MAX_32: u64 = 4294967295;

/// What a group's keys tell of its datagrams' headers.
#[tactic(auto, unfolding(crate::specs::Settings::settings_at))]
pub(crate) fn settings_of(group: &Table) -> HeaderSettings
    ensures { result ≡ settings_at (table_view group.now) }
{
    HeaderSettings {
        id: number_of(group, Key::Id, MAX_16, 0) as u16,
        version: number_of(group, Key::Version, MAX_32, 0) as u32,
        sequence: truth_of(group, Key::Sequence, true),
        message_number: truth_of(group, Key::MessageNumber, false),
        class_id: class_id_of(group),
        security: security_of(group),
    }
}

/// Who publishes.
pub(crate) fn publisher_id_of(tables: &[Placed]) -> Publisher
    ensures { result ≡ publisher_at Id (publisher_members (map seen tables.now)) }
{
    match publisher_table(tables) {
        Some(table) => publisher_at(table, Key::Id),
        None => Publisher::U8(0),
    }
}

/// The table `publisher`.
pub(crate) fn publisher_table<'a>(tables: &[Placed<'a>]) -> Option<&'a Table>
    ensures { option_map_or (λ t. table_view t.now) result no_members
        ≡ publisher_members (map seen tables.now) }
{
    for placed in tables {
        if matches!(placed.place, Place::Publisher) {
            return Some(placed.table);
        }
    }
    None
}

pub(crate) fn publisher_at(table: &Table, key: Key) -> Publisher
    ensures { result ≡ publisher_at key (table_view table.now) }
{
    Publisher::named(text_of(table, key)).unwrap_or(Publisher::U8(0))
}

pub(crate) fn class_id_of(table: &Table) -> Option<[u8; 16]>
    ensures { result ≡ class_id_at (table_view table.now) }
{
    match text_if(table, Key::ClassId) {
        Some(text) => guid_spelled(text),
        None => None,
    }
}

pub(crate) fn policy_of(table: &Table) -> Policy
    ensures { result ≡ policy_at (table_view table.now) }
{
    Policy::named(text_of(table, Key::Policy)).unwrap_or(Policy::Aes128)
}

pub(crate) fn numbering_of(table: &Table) -> NumberingWord
    ensures { result ≡ numbering_at (table_view table.now) }
{
    NumberingWord::named(text_of(table, Key::Numbering)).unwrap_or(NumberingWord::Message)
}

pub(crate) fn layout_of(table: &Table) -> Layout
    ensures { result ≡ layout_at (table_view table.now) }
{
    Layout::named(text_of(table, Key::Layout)).unwrap_or(Layout::Dynamic)
}

pub(crate) fn security_of(table: &Table) -> Security
    ensures { result ≡ security_at (table_view table.now) }
{
    Security::named(text_of(table, Key::Security)).unwrap_or(Security::None)
}
