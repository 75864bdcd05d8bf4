//! A column.

/// A column of a text.
#[derive(Clone, Copy, Debug, PartialEq, Eq)]
pub struct Column {
    /// The column, counted from 1, at which it begins. The first column of a text begins at 1: no blank stands
    /// before it.
    pub start: u16,
    /// The column's name, which stands in the heading.
    pub name: &'static [u8],
}
