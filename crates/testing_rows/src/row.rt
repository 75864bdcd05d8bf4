//! A command with the lines that it takes, and those that its answer must have.
use crate::lines::{brief, put_each};
use std::alloc::Global;
use std::test::Fail;

/// A command, and the lines before it.
pub struct Row {
    /// The number of its line in the file.
    pub line: u32,
    /// Its first word.
    pub word: String,
    /// The text after that.
    pub rest: String,
    /// The lines before it, each with its end.
    pub given: String,
    is_brief: bool,
    wanted: String,
}

// By hand, so that a function that owns one drops it by one call.
impl Drop for Row {
    fn drop(self) {
        let Row {
            line: _,
            word,
            rest,
            given,
            is_brief: _,
            wanted,
        } = self;
        drop(word);
        drop(rest);
        drop(given);
        drop(wanted);
    }
}

impl Row {
    pub(crate) fn new(alloc: Global) -> Row {
        Row {
            line: 0,
            word: String::new(alloc),
            rest: String::new(alloc),
            given: String::new(alloc),
            is_brief: false,
            wanted: String::new(alloc),
        }
    }

    /// Puts another command, of which nothing is wanted yet.
    pub(crate) fn ask(&mut self, line: u32, command: &str) -> Result<(), Fail> {
        let plain = command.strip_prefix("brief ");
        self.line = line;
        self.is_brief = plain.is_some();
        self.wanted.clear();
        self.set_words(plain.unwrap_or(command))
    }

    fn set_words(&mut self, command: &str) -> Result<(), Fail> {
        let (word, rest) = command.split_once(' ').unwrap_or((command, ""));
        self.word.clear();
        self.word.push_str(word)?;
        self.rest.clear();
        Ok(self.rest.push_str(rest)?)
    }

    /// Gives it these lines.
    pub(crate) fn give(&mut self, lines: &str) -> Result<(), Fail> {
        self.given.clear();
        Ok(self.given.push_str(lines)?)
    }

    /// The lines that are wanted.
    pub(crate) fn wanted(&self) -> &str {
        &self.wanted
    }

    /// Adds the lines for which `each ..` stands to those that are wanted. Returns whether it is written as
    /// it has to be.
    pub(crate) fn want_each(&mut self, rest: &str) -> Result<bool, Fail> {
        put_each(&mut self.wanted, rest)
    }

    /// Adds a line that is wanted: the text after `=` and a blank. Returns whether it is written as it has
    /// to be.
    pub(crate) fn want_line(&mut self, line: &str) -> Result<bool, Fail> {
        let text = line.strip_prefix("= ").unwrap_or("");
        self.wanted.push_str(text)?;
        self.wanted.push('\n')?;
        Ok(line == "=" || line.starts_with("= "))
    }

    /// An answer, as it is compared with the lines that are wanted.
    pub(crate) fn as_compared(&self, alloc: Global, told: String) -> Result<String, Fail> {
        if self.is_brief {
            return brief(alloc, &told);
        }
        Ok(told)
    }
}
