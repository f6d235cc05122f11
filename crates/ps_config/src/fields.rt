//! The fields of data sets, and the names of tables.
ghost use Rattle.std.specs.Prelude.{◌≡◌, codes};
ghost use Rattle.toml.specs.View.{table_view};
ghost use Rattle.config_tables.specs.Seen.{seen};
ghost use Rattle.ps_config.specs.Fields.{name_at, name_of, kind_of, field_of};

use config_tables::{Key, Placed, kind_named, number_of, text_of};
use dataset_meta::{Field, Name32};
use toml::Table;
use ua_values::Kind;

/// The field that a table is.
pub(crate) fn field_of(placed: &Placed) -> Field
    ensures { result ≡ field_of (seen placed.now) }
{
    Field {
        name: name_of(placed.table),
        kind: kind_of(placed),
        cap: number_of(placed.table, Key::Cap, 256, 0) as u16,
    }
}

pub(crate) fn kind_of(placed: &Placed) -> Kind
    ensures { result ≡ kind_of (seen placed.now) }
{
    kind_named(text_of(placed.table, Key::Kind)).unwrap_or(Kind::Boolean)
}

/// The name of a table, any where it has none.
pub(crate) fn name_of(table: &Table) -> Name32
    ensures { result ≡ name_at (table_view table.now) }
{
    match Name32::new(text_of(table, Key::Name).as_bytes()) {
        Some(name) => name,
        None => unnamed(),
    }
}

fn unnamed() -> Name32
    ensures { result ≡ codes "none" }
{
    match Name32::new(b"none") {
        Some(name) => name,
        None => unreachable!(),
    }
}

/// The name of a table as it stands there.
pub(crate) fn text_name_of<'a>(placed: &Placed<'a>) -> &'a str
    ensures { result.now ≡ name_of (seen placed.now) }
{
    text_of(placed.table, Key::Name)
}
