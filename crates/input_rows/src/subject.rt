//! The commands of rows. Each takes the lines before it, and the bytes that `text` and `times` have put before them.
//!
//! | Command | Its answer |
//! |---|---|
//! | `text TEXT` | none: these bytes come before what follows, with `\r`, `\n`, `\t` and `\xEF` for bytes |
//! | `times COUNT TEXT` | none: the same so many times |
//! | `read` | all statements of the source, a line each, or its fault |
//! | `statements` | the same one statement at a time, up to the fault |
//! | `asking NAME..` | the same with these operands alone |
//! | `book` | the hold book that all changes of the source leave, or the fault of a hold |
//! | `taken` | that of a book that takes one statement after the other, and before it the faults of those that are refused |
//! | `id TEXT` | the id in eight columns and as it is, or that it is none |
//! | `zone`, `received`, `patterns` | the entries of the list, a line each, or its fault |
//! | `matches PATTERN CATEGORY` | whether the category is one of the pattern's |
//! | `reads`, `writes`, `ends`, `passes` | what comes of a transfer: `transfers.rt` |
//! | `front` | what the bytes begin with: `fronts.rt` |
use crate::bytes::{put_text, put_times};
use crate::fronts::front_told;
use crate::holds::{book_told, taken_told};
use crate::lists::{list_told, matches_told};
use crate::statements::{asking_told, each_told, id_told, read_told};
use crate::transfers::transfer_told;
use std::alloc::Global;
use std::test::Fail;
use testing_rows::{Row, Subject};

/// The bytes before a command.
#[derive(Drop)]
pub(crate) struct Input {
    bytes: Vec<u8>,
}

impl Input {
    pub(crate) fn new(alloc: Global) -> Input {
        let bytes = Vec::new(alloc);
        Input { bytes }
    }
}

impl Subject for Input {
    fn begin(&mut self, _alloc: Global) -> Result<(), Fail> {
        self.bytes.clear();
        Ok(())
    }

    fn answer(&mut self, alloc: Global, row: &Row) -> Result<Option<String>, Fail> {
        self.bytes.extend_from_slice(row.given.as_bytes())?;
        match row.word.as_str() {
            "text" => put_text(&mut self.bytes, &row.rest)?,
            "times" => put_times(&mut self.bytes, &row.rest)?,
            word => {
                let told = told(alloc, &self.bytes, word, &row.rest)?;
                self.bytes.clear();
                return Ok(told);
            }
        }
        Ok(Some(String::new(alloc)))
    }
}

fn told(alloc: Global, bytes: &[u8], word: &str, rest: &str) -> Result<Option<String>, Fail> {
    match word {
        "read" => Ok(Some(read_told(alloc, bytes)?)),
        "statements" => Ok(Some(each_told(alloc, bytes)?)),
        "asking" => Ok(Some(asking_told(alloc, bytes, rest)?)),
        "book" => Ok(Some(book_told(alloc, bytes)?)),
        "taken" => Ok(Some(taken_told(alloc, bytes)?)),
        "id" => Ok(Some(id_told(alloc, rest)?)),
        "matches" => Ok(Some(matches_told(alloc, rest)?)),
        "front" => Ok(Some(front_told(alloc, bytes)?)),
        _ => told_of_others(alloc, bytes, word, rest),
    }
}

fn told_of_others(
    alloc: Global,
    bytes: &[u8],
    word: &str,
    rest: &str,
) -> Result<Option<String>, Fail> {
    match list_told(alloc, bytes, word)? {
        Some(text) => Ok(Some(text)),
        None => transfer_told(alloc, word, rest),
    }
}
