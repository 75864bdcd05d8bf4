//! The table `bureau_version`: the version of the tables.
ghost use Rattle.std.specs.Prelude.{◌≡◌};
ghost use Rattle.sql_checks.specs.Shapes.{table_of_shape};
ghost use Rattle.sql_texts.specs.Schema as made;

use crate::shapes::{Rule, TableShape};
use sqlite_schema::schema::Kind;
use sqlite_sql::ops::CompareOp;

/// The version, in one row, whose column `one` is the rowid.
pub(crate) fn shape() -> TableShape
    ensures { table_of_shape result ≡ made.bureau_version }
{
    TableShape {
        name: "bureau_version",
        tree: 0,
        columns: &[
            ("one", Kind::Integer, false),
            ("version", Kind::Integer, true),
        ],
        key: Some(0),
        primary: &[0],
        uniques: &[],
        rule: Some(Rule::Compared(CompareOp::Eq, 0, 1)),
    }
}
