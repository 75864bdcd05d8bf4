//! The parts of a table and of an index.

use sqlite_schema::schema::Kind;
use sqlite_sql::ops::CompareOp;

/// A rule of a table on the number in one of its columns, which are counted from 1.
#[derive(Clone, Copy)]
pub(crate) enum Rule {
    /// It compares so with a number.
    Compared(CompareOp, usize, i64),
    /// It is at least 0 and at most a number.
    UpTo(usize, i64),
}

/// A table whose columns take values of their kind only.
#[derive(Clone, Copy)]
pub(crate) struct TableShape {
    pub(crate) name: &'static str,
    pub(crate) tree: u32,
    /// The names and the kinds of the columns, and whether they are never NULL.
    pub(crate) columns: &'static [(&'static str, Kind, bool)],
    /// The column that the rowid stands for, from 0 on.
    pub(crate) key: Option<usize>,
    /// The places of the primary key.
    pub(crate) primary: &'static [usize],
    /// The places of each key that isn't the rowid.
    pub(crate) uniques: &'static [&'static [usize]],
    pub(crate) rule: Option<Rule>,
}

/// An index of a table, whose entries ascend.
#[derive(Clone, Copy)]
pub(crate) struct IndexShape {
    pub(crate) name: &'static str,
    pub(crate) tree: u32,
    pub(crate) table: u32,
    pub(crate) columns: &'static [usize],
    pub(crate) is_unique: bool,
}
