//! The state of a file: the lines that the next command takes, and the command that has no answer yet.
use crate::Row;
use crate::lines::put_each;
use std::alloc::Global;
use std::test::Fail;
use testing::BASE;

pub(crate) struct Page {
    /// The number of the last line.
    pub line: u32,
    /// Whether a line of the case was seen.
    pub is_in_case: bool,
    /// Whether the row has a command, of which the answer isn't compared yet.
    pub is_asked: bool,
    pub row: Row,
    /// The lines that the next command takes.
    given: String,
}

// By hand, so that a function that owns one drops it by one call.
impl Drop for Page {
    fn drop(self) {
        let Page {
            line: _,
            is_in_case: _,
            is_asked: _,
            row,
            given,
        } = self;
        drop(row);
        drop(given);
    }
}

impl Page {
    pub(crate) fn new(alloc: Global) -> Page {
        Page {
            line: 0,
            is_in_case: false,
            is_asked: false,
            row: Row::new(alloc),
            given: String::new(alloc),
        }
    }

    /// Puts another command, which takes the lines before it.
    pub(crate) fn ask(&mut self, command: &str) -> Result<(), Fail> {
        self.is_asked = true;
        self.row.ask(self.line, command)?;
        self.row.give(&self.given)?;
        self.given.clear();
        Ok(())
    }

    /// Gives the next command this line.
    pub(crate) fn give(&mut self, line: &str) -> Result<(), Fail> {
        self.given.push_str(line)?;
        Ok(self.given.push('\n')?)
    }

    /// Gives the next command the statements of the worked case.
    pub(crate) fn give_base(&mut self) -> Result<(), Fail> {
        let base = std::str::from_utf8(BASE).map_err(|_| "a text")?;
        Ok(self.given.push_str(base)?)
    }

    /// Gives the next command the lines for which `each ..` stands. Returns whether it is written as it has to be.
    pub(crate) fn give_each(&mut self, rest: &str) -> Result<bool, Fail> {
        put_each(&mut self.given, rest)
    }

    /// Whether lines wait for a command.
    pub(crate) fn has_lines(&self) -> bool {
        !self.given.is_empty()
    }

    /// Drops the lines that no command has taken.
    pub(crate) fn forget_lines(&mut self) {
        self.given.clear();
    }

    /// Adds a line that is wanted, or those for which `=each ..` stands. Returns whether it is written as it has to be,
    /// after a command.
    pub(crate) fn want(&mut self, line: &str) -> Result<bool, Fail> {
        if !self.is_asked || self.has_lines() {
            return Ok(false);
        }
        match line.strip_prefix("=each ") {
            Some(rest) => self.row.want_each(rest),
            None => self.row.want_line(line),
        }
    }
}
