//! The tables of a document.
ghost use Rattle.std.specs.Prelude.{◌≡◌, ◌++◌, map, option_map, OnOk, IfOk};
ghost use Rattle.toml.specs.Data.{get_member};
ghost use Rattle.toml.specs.View.{view, table_view, items_view};
ghost use Rattle.config_tables.specs.Tables.{inner_tables, tables_with, tables_of, publisher_of, tables, items_at};
ghost use Rattle.config_tables.specs.Seen.{seen};

use crate::place::{Part, Place};
use std::alloc::{AllocError, Global};
use toml::{Table, Value};

/// A table, and where it stands.
#[derive(Clone, Copy, Drop)]
pub struct Placed<'a> {
    pub place: Place,
    /// The table that has this one, or its array: the document where this is the document.
    pub outer: &'a Table,
    pub table: &'a Table,
}

/// All tables of the document, in the order in which a fault is looked for.
pub fn tables_of(alloc: Global, document: &Table) -> Result<Vec<Placed<'_>>, AllocError>
    ensures { IfOk result (λ found. map seen found.items ≡ tables (table_view document.now)) }
{
    let mut tables = Vec::new(alloc);
    tables.push(Placed {
        place: Place::Root,
        outer: document,
        table: document,
    })?;
    add_publisher(&mut tables, document)?;
    add_outer(&mut tables, document, Part::DataSet)?;
    add_outer(&mut tables, document, Part::KeyGroup)?;
    add_outer(&mut tables, document, Part::Group)?;
    add_outer(&mut tables, document, Part::ReadGroup)?;
    Ok(tables)
}

fn add_publisher<'a>(tables: &mut Vec<Placed<'a>>, document: &'a Table) -> Result<(), AllocError>
    ensures { OnOk result (map seen tables.new.items
        ≡ map seen tables.old.items ++ publisher_of (table_view document.now)) }
{
    if let Some(Value::Table(table)) = value_at(document, "publisher") {
        tables.push(Placed {
            place: Place::Publisher,
            outer: document,
            table,
        })?;
    }
    Ok(())
}

fn add_outer<'a>(
    tables: &mut Vec<Placed<'a>>,
    document: &'a Table,
    part: Part,
) -> Result<(), AllocError>
    ensures { OnOk result (map seen tables.new.items
        ≡ map seen tables.old.items ++ tables_of part (table_view document.now)) }
{
    for (index, value) in items_at(document, part.outer_key()).iter().enumerate() {
        if let Some(table) = value.as_table() {
            tables.push(Placed {
                place: Place::Outer(part, index),
                outer: document,
                table,
            })?;
            add_inner(tables, table, part, index)?;
        }
    }
    Ok(())
}

fn add_inner<'a>(
    tables: &mut Vec<Placed<'a>>,
    element: &'a Table,
    part: Part,
    outer: usize,
) -> Result<(), AllocError>
    ensures { OnOk result (map seen tables.new.items
        ≡ map seen tables.old.items ++ inner_tables part outer (table_view element.now)) }
{
    for (index, value) in items_at(element, part.inner_key()).iter().enumerate() {
        if let Some(table) = value.as_table() {
            tables.push(Placed {
                place: Place::Inner(part, outer, index),
                outer: element,
                table,
            })?;
        }
    }
    Ok(())
}

/// The items of the array at a key, none where there is no array.
fn items_at<'a>(table: &'a Table, key: &str) -> &'a [Value]
    ensures { items_view result.now ≡ items_at key.now (table_view table.now) }
{
    match value_at(table, key) {
        Some(Value::Array(items)) => items,
        _ => &[],
    }
}

/// The value at a key.
pub fn value_at<'a>(table: &'a Table, key: &str) -> Option<&'a Value>
    ensures { option_map (λ v. view v.now) result ≡ get_member key.now (table_view table.now) }
{
    table.get(key)
}
