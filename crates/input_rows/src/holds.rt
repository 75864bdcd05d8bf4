//! Hold books in print, of the statements of a source without a fault of the text.
use crate::print::{put_bytes, put_fault};
use holddata::{HoldBook, book_left, changes};
use mcs_reader::read;
use std::alloc::Global;
use std::test::Fail;

/// The book that all changes of a source leave, or the first fault of its holds.
pub(crate) fn book_told(alloc: Global, source: &[u8]) -> Result<String, Fail> {
    let mut text = String::new(alloc);
    match changes(alloc, &read(alloc, source)?) {
        Ok(changes) => put_book(&mut text, &book_left(alloc, changes)?)?,
        Err(fault) => put_fault(&mut text, fault)?,
    }
    Ok(text)
}

/// A copy of the book that takes one statement after the other. Before it stand those that are
/// refused.
pub(crate) fn taken_told(alloc: Global, source: &[u8]) -> Result<String, Fail> {
    let mut text = String::new(alloc);
    let mut book = HoldBook::new(alloc);
    for statement in &read(alloc, source)? {
        if let Err(fault) = book.apply_statement(statement) {
            put_fault(&mut text, fault)?;
        }
    }
    put_book(&mut text, &book.copy()?)?;
    Ok(text)
}

fn put_book(text: &mut String, book: &HoldBook) -> Result<(), Fail> {
    Ok(put_bytes(text, &book.text()?)?)
}
