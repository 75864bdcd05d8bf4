//! A text in columns, made row by row.
ghost use Rattle.std.specs.Prelude.{◌≡◌, ◌++◌, ◌∷◌, [], ℕ, List, Option, IfOk, OnOk, OnErr};
ghost use Rattle.std.specs.Option.{option_copied};
ghost use Rattle.columns.specs.Columns.{columns_of, texts_of, text_of};
ghost use Rattle.columns.specs.Table.{table_with, add_row, finished};

use crate::line::{push_count, push_heading, push_row, push_title};
use crate::{Column, NoMemory};
use std::alloc::Global;
use std::marker::Model;

/// A text in columns, made row by row: its lines so far, each ended by LF. A contract sees its columns, its
/// text and the number of its rows.
#[derive(Drop)]
pub struct Table<'a> {
    columns: &'a [Column],
    text: Vec<u8>,
    rows: usize,
}

impl<'a> Model for Table<'a> {
    ghost use Rattle.std.specs.Prelude.{◌≤◌, length};
    ghost use Rattle.columns.specs.Columns.{columns_of};
    ghost use Rattle.columns.specs.Table.{TableText};

    ghost Value = { TableText };

    ghost view = { λ t. record { columns = columns_of t.columns.now; text = t.text.items; rows = t.rows } };

    ghost invariant = { λ t. t.rows ≤ length t.text.items };
}

impl<'a> Table<'a> {
    /// A table without rows: the title's line, if there is a title, and the line with the columns' names.
    ///
    /// # Errors
    ///
    /// Memory ran out.
    pub fn new(alloc: Global, columns: &'a [Column], title: Option<&[u8]>) -> Result<Self, NoMemory>
        ensures { IfOk result (λ table.
            table ≡ table_with (columns_of columns.now) (option_copied title.entry) []) }
    {
        let mut text = Vec::new(alloc);
        push_title(&mut text, title)?;
        push_heading(&mut text, columns)?;
        Ok(Table {
            columns,
            text,
            rows: 0,
        })
    }

    /// Appends a row: a field for each column, each with blanks up to the next column. No blank follows the
    /// field in the last column, and a field that is too long for its column stands as it is.
    ///
    /// # Errors
    ///
    /// Memory ran out. The table is as it was.
    pub fn push(&mut self, fields: &[&[u8]]) -> Result<(), NoMemory>
        ensures row { OnOk result (self.new ≡ add_row self.old (texts_of fields.now)) }
        ensures rows { (columns : List (ℕ × List ℕ)) (title : Option (List ℕ))
            (rows : List (List (List ℕ))) → self.old ≡ table_with columns title rows →
            OnOk result (self.new ≡ table_with columns title (rows ++ texts_of fields.now ∷ [])) }
        ensures err { OnErr result (self.new ≡ self.old) }
    {
        let before = self.text.len();
        let pushed = push_row(&mut self.text, self.columns, fields);
        if pushed.is_err() {
            self.text.truncate(before);
        } else {
            self.rows += 1;
        }
        pushed
    }

    /// Returns the whole text, which ends with the line that counts the rows.
    ///
    /// # Errors
    ///
    /// Memory ran out.
    pub fn finish(self) -> Result<Vec<u8>, NoMemory>
        ensures text { IfOk result (λ text. text.items ≡ finished self.entry) }
        ensures whole { (columns : List (ℕ × List ℕ)) (title : Option (List ℕ))
            (rows : List (List (List ℕ))) → self.entry ≡ table_with columns title rows →
            IfOk result (λ text. text.items ≡ text_of columns title rows) }
    {
        let mut text = self.text;
        push_count(&mut text, self.rows)?;
        Ok(text)
    }
}
