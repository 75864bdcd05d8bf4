//! Whether a database has the bureau's tables.
ghost use Rattle.std.specs.Prelude.{◌≡◌, ◌↔◌, [], map, IfOk, IsTrue};
ghost use Rattle.sqlite_value.specs.Keys.{plain};
ghost use Rattle.sql_checks.specs.Shapes.{index_of_shape, table_of_shape};
ghost use Rattle.sql_texts.specs.Schema.{bureau, column_of};

use crate::rules::has_rule;
use crate::shapes::{IndexShape, TableShape};
use crate::table::{indexes, tables};
use sqlite_items::Items;
use sqlite_schema::schema::{Column, Index, Kind, Schema, Table};
use sqlite_value::keys::{Collation, Order};
use sqlite_value::value::Value;
use std::alloc::{AllocError, Global};

// Whether the column takes values of this kind only, and NULL or not.
fn is_column(column: &Column, name: &str, kind: Kind, not_null: bool) -> bool
    ensures { IsTrue result
        ↔ (column.now ≡ record (column_of kind name.now) { not_null = not_null }) }
{
    column.name.as_slice() == name.as_bytes()
        && column.kind == kind
        && column.is_strict
        && column.not_null == not_null
        && matches!(column.default, Value::Null)
        && column.collation == Collation::Binary
}

// Whether the columns are these.
fn are_columns(columns: &[Column], shapes: &[(&str, Kind, bool)]) -> bool
    ensures { IsTrue result ↔ (columns.now
        ≡ map (λ column. record (column_of column.1 column.0.now) { not_null = column.2 }) shapes.now) }
{
    match (columns.split_first(), shapes.split_first()) {
        (None, None) => true,
        (Some((column, columns)), Some((shape, shapes))) => {
            is_column(column, shape.0, shape.1, shape.2) && are_columns(columns, shapes)
        }
        _ => false,
    }
}

// Whether the keys have these places.
fn are_keys(keys: &[Items<usize>], places: &[&[usize]]) -> bool
    ensures { IsTrue result ↔ (keys.now ≡ map (λ key. key.now) places.now) }
{
    match (keys.split_first(), places.split_first()) {
        (None, None) => true,
        (Some((key, keys)), Some((wanted, places))) => {
            key.as_slice() == *wanted && are_keys(keys, places)
        }
        _ => false,
    }
}

// Whether each key ascends.
fn are_plain(orders: &[Order], places: &[&[usize]]) -> bool
    ensures { IsTrue result ↔ (orders.now ≡ map (λ key. plain) places.now) }
{
    match (orders.split_first(), places.split_first()) {
        (None, None) => true,
        (Some((order, orders)), Some((_, places))) => {
            order.digits == 0 && are_plain(orders, places)
        }
        _ => false,
    }
}

// Whether a table has this shape, apart from its rules and from the times in it.
fn has_shape(table: &Table, shape: &TableShape) -> bool
    ensures { IsTrue result ↔ (table.now ≡ record (table_of_shape shape.now) {
      checks = table.now.checks;
      stamps = record { places = []; terms = table.now.stamps.terms; formats = [] };
    }) }
{
    table.name.as_slice() == shape.name.as_bytes()
        && table.tree == shape.tree
        && are_columns(table.columns.as_slice(), shape.columns)
        && table.key == shape.key
        && table.primary.as_slice() == shape.primary
        && are_keys(table.uniques.as_slice(), shape.uniques)
        && are_plain(table.orders.as_slice(), shape.uniques)
        && table.references.is_empty()
        && table.computed.is_empty()
        && table.stamps.places.is_empty()
        && table.stamps.formats.is_empty()
        && !table.is_counted
}

/// Whether a table has this shape.
///
/// # Errors
///
/// Memory ran out.
pub(crate) fn is_table(alloc: Global, table: &Table, shape: &TableShape) -> Result<bool, AllocError>
    ensures { IfOk result (λ is. IsTrue is ↔ (table.now ≡ table_of_shape shape.now)) }
{
    let ruled = has_rule(alloc, &table.checks, shape.rule)?;
    let timeless = has_rule(alloc, &table.stamps.terms, None)?;
    Ok(ruled && timeless && has_shape(table, shape))
}

// Whether the tables have these shapes.
fn are_tables(alloc: Global, tables: &[Table], shapes: &[TableShape]) -> Result<bool, AllocError>
    ensures { IfOk result (λ are. IsTrue are ↔ (tables.now ≡ map table_of_shape shapes.now)) }
{
    match (tables.split_first(), shapes.split_first()) {
        (None, None) => Ok(true),
        (Some((table, tables)), Some((shape, shapes))) => {
            let is = is_table(alloc, table, shape)?;
            let others = are_tables(alloc, tables, shapes)?;
            Ok(is && others)
        }
        _ => Ok(false),
    }
}

/// Whether an index has this shape.
pub(crate) fn is_index(index: &Index, shape: &IndexShape) -> bool
    ensures { IsTrue result ↔ (index.now ≡ index_of_shape shape.now) }
{
    index.name.as_slice() == shape.name.as_bytes()
        && index.tree == shape.tree
        && index.table == shape.table
        && index.columns.as_slice() == shape.columns
        && index.order.digits == 0
        && index.is_unique == shape.is_unique
}

// Whether the indexes have these shapes.
fn are_indexes(indexes: &[Index], shapes: &[IndexShape]) -> bool
    ensures { IsTrue result ↔ (indexes.now ≡ map index_of_shape shapes.now) }
{
    match (indexes.split_first(), shapes.split_first()) {
        (None, None) => true,
        (Some((index, indexes)), Some((shape, shapes))) => {
            is_index(index, shape) && are_indexes(indexes, shapes)
        }
        _ => false,
    }
}

/// Whether these are the tables and the indexes of version 2, made as the bureau makes them.
///
/// # Errors
///
/// Memory ran out.
pub fn is_store_schema(alloc: Global, schema: &Schema) -> Result<bool, AllocError>
    ensures { IfOk result (λ is. IsTrue is ↔ (schema.now ≡ bureau)) }
{
    let made = tables();
    let tables = are_tables(alloc, schema.tables.as_slice(), &made)?;
    Ok(tables && are_indexes(schema.indexes.as_slice(), &indexes()) && schema.views.is_empty())
}
