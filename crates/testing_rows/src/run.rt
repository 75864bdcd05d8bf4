//! Runs the rows of a text, or of files.
use crate::page::Page;
use crate::{Row, Tally};
use std::alloc::Global;
use std::fs;
use std::rt::Files;
use std::test::Fail;

/// Answers the commands of rows.
pub trait Subject {
    /// Begins a case: nothing is left of the one before.
    ///
    /// # Errors
    ///
    /// A failure if memory ran out.
    fn begin(&mut self, alloc: Global) -> Result<(), Fail>;

    /// Answers a command by lines, each with its end. A word that isn't known has no answer.
    ///
    /// # Errors
    ///
    /// A failure, which ends the run.
    fn answer(&mut self, alloc: Global, row: &Row) -> Result<Option<String>, Fail>;
}

/// Runs the rows of files.
///
/// # Errors
///
/// A failure of the subject, or if a file can't be read.
pub fn run_files<R: Files + AllocGlobal, S: Subject>(
    rt: &R,
    subject: &mut S,
    tally: &mut Tally,
    names: &[&str],
) -> Result<(), Fail> {
    for name in names {
        let text = fs::read_to_string(rt, name)?;
        run_text(rt.alloc(), subject, tally, name, &text)?;
    }
    Ok(())
}

/// Runs the rows of a text, which is named as a file in messages.
///
/// # Errors
///
/// A failure of the subject.
pub fn run_text<S: Subject>(
    alloc: Global,
    subject: &mut S,
    tally: &mut Tally,
    name: &str,
    text: &str,
) -> Result<(), Fail> {
    let mut page = Page::new(alloc);
    tally.begin(name)?;
    run_lines(alloc, subject, tally, &mut page, text)?;
    tally.end(page.line)
}

fn run_lines<S: Subject>(
    alloc: Global,
    subject: &mut S,
    tally: &mut Tally,
    page: &mut Page,
    text: &str,
) -> Result<(), Fail> {
    for line in text.lines() {
        page.line = page.line.saturating_add(1);
        run_line(alloc, subject, tally, page, line)?;
    }
    end_case(alloc, subject, tally, page)
}

fn run_line<S: Subject>(
    alloc: Global,
    subject: &mut S,
    tally: &mut Tally,
    page: &mut Page,
    line: &str,
) -> Result<(), Fail> {
    if line.is_empty() {
        return end_case(alloc, subject, tally, page);
    }
    if !page.is_in_case {
        page.is_in_case = true;
        subject.begin(alloc)?;
    }
    run_line_of_case(alloc, subject, tally, page, line)
}

fn run_line_of_case<S: Subject>(
    alloc: Global,
    subject: &mut S,
    tally: &mut Tally,
    page: &mut Page,
    line: &str,
) -> Result<(), Fail> {
    match line.as_bytes().first() {
        None | Some(b'*') => Ok(()),
        Some(b'+' | b' ') => page.give(line),
        Some(b'|') => page.give(line.strip_prefix('|').unwrap_or("")),
        Some(b'=') => want(tally, page, line),
        _ => run_words(alloc, subject, tally, page, line),
    }
}

// Takes a line that is wanted.
fn want(tally: &mut Tally, page: &mut Page, line: &str) -> Result<(), Fail> {
    if page.want(line)? {
        return Ok(());
    }
    tally.complain(
        page.line,
        "= TEXT or =each FIRST LAST TEXT after a command is wanted",
    )
}

fn run_words<S: Subject>(
    alloc: Global,
    subject: &mut S,
    tally: &mut Tally,
    page: &mut Page,
    line: &str,
) -> Result<(), Fail> {
    if line == "base" {
        return page.give_base();
    }
    match line.strip_prefix("each ") {
        Some(rest) => give_each(tally, page, rest),
        None => ask(alloc, subject, tally, page, line),
    }
}

fn give_each(tally: &mut Tally, page: &mut Page, rest: &str) -> Result<(), Fail> {
    if page.give_each(rest)? {
        return Ok(());
    }
    tally.complain(page.line, "each FIRST LAST TEXT is wanted")
}

// Takes a command. The one before it has all its wanted lines.
fn ask<S: Subject>(
    alloc: Global,
    subject: &mut S,
    tally: &mut Tally,
    page: &mut Page,
    line: &str,
) -> Result<(), Fail> {
    settle(alloc, subject, tally, page)?;
    page.ask(line)
}

// Has the command answered that has no answer yet.
fn settle<S: Subject>(
    alloc: Global,
    subject: &mut S,
    tally: &mut Tally,
    page: &mut Page,
) -> Result<(), Fail> {
    if !page.is_asked {
        return Ok(());
    }
    page.is_asked = false;
    let told = subject.answer(alloc, &page.row)?;
    tally.compare(alloc, &page.row, told)
}

fn end_case<S: Subject>(
    alloc: Global,
    subject: &mut S,
    tally: &mut Tally,
    page: &mut Page,
) -> Result<(), Fail> {
    settle(alloc, subject, tally, page)?;
    page.is_in_case = false;
    if page.has_lines() {
        page.forget_lines();
        return tally.complain(page.line, "the lines before have no command");
    }
    Ok(())
}
