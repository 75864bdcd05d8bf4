//! The numbers of right and of wrong answers, and a text on the wrong ones.
ghost use Rattle.std.specs.Prelude.{◌≡◌, ◌+◌, ◌<◌, true, false};

use crate::Row;
use std::alloc::Global;
use std::fmt::Write;
use std::test::Fail;

/// The numbers of right and of wrong answers. It tells of each wrong answer, with its file and line.
pub struct Tally {
    /// The text on wrong answers, each line with its end.
    pub said: String,
    pub right: u32,
    pub wrong: u32,
    // The file whose rows run, and the answers before it.
    name: String,
    before: u32,
}

// By hand, so that a function that owns one drops it by one call.
impl Drop for Tally {
    fn drop(self) {
        let Tally {
            said,
            right: _,
            wrong: _,
            name,
            before: _,
        } = self;
        drop(said);
        drop(name);
    }
}

impl Tally {
    /// No answers yet.
    pub fn new(alloc: Global) -> Tally {
        Tally {
            said: String::new(alloc),
            right: 0,
            wrong: 0,
            name: String::new(alloc),
            before: 0,
        }
    }

    fn count(&self) -> u32 {
        self.right.saturating_add(self.wrong)
    }

    /// Begins the rows of a file.
    pub(crate) fn begin(&mut self, name: &str) -> Result<(), Fail> {
        self.before = self.count();
        self.name.clear();
        Ok(self.name.push_str(name)?)
    }

    /// Tells the number of answers of the file. A file without any is wrong.
    pub(crate) fn end(&mut self, lines: u32) -> Result<(), Fail> {
        let count = self.count().saturating_sub(self.before);
        if count == 0 {
            return self.complain(lines, "it has no row");
        }
        write!(self.said, "{}: {count} answers\n", self.name)?;
        Ok(())
    }

    // Counts one more answer.
    fn add(&mut self, is_right: bool)
        ensures right { is_right ≡ true → self.old.right < 4294967295 →
            self.new.right ≡ self.old.right + 1 }
        ensures not_right { is_right ≡ false → self.new.right ≡ self.old.right }
        ensures wrong { is_right ≡ false → self.old.wrong < 4294967295 →
            self.new.wrong ≡ self.old.wrong + 1 }
        ensures not_wrong { is_right ≡ true → self.new.wrong ≡ self.old.wrong }
    {
        if is_right {
            self.right = self.right.saturating_add(1);
        } else {
            self.wrong = self.wrong.saturating_add(1);
        }
    }

    /// Tells that a line is wrong.
    pub(crate) fn complain(&mut self, line: u32, why: &str) -> Result<(), Fail> {
        self.add(false);
        write!(self.said, "{}:{line}: {why}\n", self.name)?;
        Ok(())
    }

    /// Compares an answer with the lines that are wanted. A word that isn't known has no answer.
    pub(crate) fn compare(
        &mut self,
        alloc: Global,
        row: &Row,
        told: Option<String>,
    ) -> Result<(), Fail> {
        match told {
            Some(told) => self.compare_text(row, &row.as_compared(alloc, told)?),
            None => self.complain_of_word(row),
        }
    }

    fn compare_text(&mut self, row: &Row, told: &str) -> Result<(), Fail> {
        if told != row.wanted() {
            return self.complain_of(row, told);
        }
        if !told.is_empty() {
            self.add(true);
        }
        Ok(())
    }

    fn complain_of_word(&mut self, row: &Row) -> Result<(), Fail> {
        self.complain(row.line, "an unknown word")
    }

    fn complain_of(&mut self, row: &Row, told: &str) -> Result<(), Fail> {
        self.complain(row.line, row.word.as_str())?;
        put_lines(&mut self.said, "  told   ", told)?;
        put_lines(&mut self.said, "  wanted ", row.wanted())
    }
}

fn put_lines(said: &mut String, front: &str, lines: &str) -> Result<(), Fail> {
    for line in lines.lines() {
        said.push_str(front)?;
        said.push_str(line)?;
        said.push('\n')?;
    }
    Ok(())
}
