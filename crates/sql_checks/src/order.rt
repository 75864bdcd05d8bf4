//! Whether a database has the bureau's tables and indexes, in whatever order they are listed.
ghost use Rattle.std.specs.Prelude.{◌≡◌, ◌↔◌, map, option_map, IfOk, IsTrue};
ghost use Rattle.std.specs.List.{AllByRecursion};
ghost use Rattle.sql_checks.specs.Order.{HasIndex, HasTable, HaveOneName, IsIndex, ListsAll, name_at};
ghost use Rattle.sql_checks.specs.Shapes.{index_of_shape, table_of_shape};

use crate::schema::{is_index, is_table};
use crate::shapes::{IndexShape, TableShape};
use crate::table::{indexes, tables};
use sqlite_schema::schema::{Index, Schema, Table};
use std::alloc::{AllocError, Global};

// Whether one of the tables has this shape, in whatever tree.
fn has_table(alloc: Global, tables: &[Table], shape: &TableShape) -> Result<bool, AllocError>
    ensures { IfOk result (λ has. IsTrue has ↔ HasTable tables.now (table_of_shape shape.now)) }
{
    match tables.split_first() {
        None => Ok(false),
        Some((table, tables)) => {
            let mut placed = *shape;
            placed.tree = table.tree;
            if is_table(alloc, table, &placed)? {
                return Ok(true);
            }
            has_table(alloc, tables, shape)
        }
    }
}

// Whether each of these shapes is that of a table.
fn has_tables(alloc: Global, tables: &[Table], shapes: &[TableShape]) -> Result<bool, AllocError>
    ensures { IfOk result (λ has. IsTrue has
        ↔ AllByRecursion (HasTable tables.now) (map table_of_shape shapes.now)) }
{
    match shapes.split_first() {
        None => Ok(true),
        Some((shape, shapes)) => {
            if !has_table(alloc, tables, shape)? {
                return Ok(false);
            }
            has_tables(alloc, tables, shapes)
        }
    }
}

// The name of the table in a tree.
fn name_in(tables: &[Table], tree: u32) -> Option<&[u8]>
    ensures { option_map (λ name. name.now) result ≡ name_at tables.now tree }
{
    match tables.split_first() {
        None => None,
        Some((table, _)) if table.tree == tree => Some(table.name.as_slice()),
        Some((_, tables)) => name_in(tables, tree),
    }
}

// The same of the bureau's tables.
fn name_of(shapes: &[TableShape], tree: u32) -> Option<&'static str>
    ensures { option_map (λ name. name.now) result ≡ name_at (map table_of_shape shapes.now) tree }
{
    match shapes.split_first() {
        None => None,
        Some((shape, _)) if shape.tree == tree => Some(shape.name),
        Some((_, shapes)) => name_of(shapes, tree),
    }
}

// Whether a table of the database has the name of one of the bureau's.
fn have_one_name(tables: &[Table], tree: u32, shapes: &[TableShape], other: u32) -> bool
    ensures { IsTrue result
        ↔ HaveOneName tables.now tree (map table_of_shape shapes.now) other }
{
    match (name_in(tables, tree), name_of(shapes, other)) {
        (Some(name), Some(wanted)) => name == wanted.as_bytes(),
        _ => false,
    }
}

// Whether an index has this shape, in whatever tree, and is of the table with the same name.
fn is_placed(tables: &[Table], index: &Index, shape: &IndexShape) -> bool
    ensures { IsTrue result ↔ IsIndex tables.now (index_of_shape shape.now) index.now }
{
    let mut placed = *shape;
    placed.tree = index.tree;
    placed.table = index.table;
    is_index(index, &placed)
        && have_one_name(tables, index.table, &crate::table::tables(), shape.table)
}

// Whether one of the indexes is.
fn has_index(tables: &[Table], indexes: &[Index], shape: &IndexShape) -> bool
    ensures { IsTrue result ↔ HasIndex tables.now indexes.now (index_of_shape shape.now) }
{
    match indexes.split_first() {
        None => false,
        Some((index, indexes)) => {
            is_placed(tables, index, shape) || has_index(tables, indexes, shape)
        }
    }
}

// Whether each of these shapes is that of an index.
fn has_indexes(tables: &[Table], indexes: &[Index], shapes: &[IndexShape]) -> bool
    ensures { IsTrue result
        ↔ AllByRecursion (HasIndex tables.now indexes.now) (map index_of_shape shapes.now) }
{
    match shapes.split_first() {
        None => true,
        Some((shape, shapes)) => {
            has_index(tables, indexes, shape) && has_indexes(tables, indexes, shapes)
        }
    }
}

/// Whether these are the tables and the indexes of version 2, made as the bureau makes them, in whatever order.
///
/// # Errors
///
/// Memory ran out.
pub(crate) fn lists_all(alloc: Global, schema: &Schema) -> Result<bool, AllocError>
    ensures { IfOk result (λ lists. IsTrue lists ↔ ListsAll schema.now) }
{
    let (made, keys) = (tables(), indexes());
    let (tables, indexes) = (schema.tables.as_slice(), schema.indexes.as_slice());
    let many = tables.len() == made.len() && indexes.len() == keys.len() && schema.views.is_empty();
    let all = has_tables(alloc, tables, &made)?;
    Ok(many && all && has_indexes(tables, indexes, &keys))
}
