//! A line, with its line end.
ghost use Rattle.std.specs.Prelude.{◌≡◌, ◌+◌, ◌<◌, ◌≤◌, ◌∷◌, ◌++◌, []};
ghost use Rattle.arrayvec.specs.ArrayVec.{array_vec_len};
ghost use Rattle.log_lines.specs.Lines.{ArePrinted, IsOneLine, fault_text, field, lack_text, lost_text, request_text};

use crate::note::Note;
use crate::word::Word;
use arrayvec::ArrayVec;
use std::marker::Model;

/// A line, with its line end.
///
/// A contract sees it as its bytes.
#[derive(Drop)]
pub struct Line {
    bytes: ArrayVec<u8, 600>,
}

impl Model for Line {
    ghost use Rattle.std.specs.Prelude.{List, ℕ};
    ghost use Rattle.log_lines.specs.Lines.{IsOneLine};

    ghost Value = { List ℕ };

    ghost view = { λ line. line.bytes.items };

    ghost invariant = { λ line. IsOneLine line.bytes.items };
}

impl Line {
    /// Its bytes: printed characters of ASCII and blanks, and a line end.
    pub fn as_slice(&self) -> &[u8]
        ensures bytes { result.now ≡ self.now }
        ensures line { IsOneLine result.now }
    {
        self.bytes.as_slice()
    }

    // A line of these bytes.
    fn of(front: ArrayVec<u8, 600>) -> Line
        requires room { array_vec_len front < 600 }
        requires printed { ArePrinted front.items }
        ensures { result ≡ front.items ++ 10 ∷ [] }
    {
        let mut bytes = front;
        bytes.push(b'\n');
        Line { bytes }
    }
}

/// The line of a request whose reply went out whole: the time of that, and the milliseconds that the request
/// took. What its call lacked comes last, if it lacked something.
pub fn request_line(stamp: &Word, note: &Note, took: u64) -> Line
    ensures { result ≡ request_text stamp.now note.now took }
{
    let mut bytes = ArrayVec::new();
    put_field(&mut bytes, stamp);
    put_field(&mut bytes, &note.caller);
    put_field(&mut bytes, &note.method);
    put_field(&mut bytes, &note.path);
    put_field(&mut bytes, &Word::number(u64::from(note.status)));
    put_field(&mut bytes, &Word::number(note.came));
    put_field(&mut bytes, &Word::number(note.went));
    put(&mut bytes, &Word::number(took));
    put_lack(&mut bytes, &note.lack);
    Line::of(bytes)
}

/// The line of a connection that failed: the time of that, and the number of the fault.
pub fn fault_line(stamp: &Word, number: u16) -> Line
    ensures { result ≡ fault_text stamp.now number }
{
    let mut bytes = ArrayVec::new();
    put_field(&mut bytes, stamp);
    put_field(&mut bytes, &Word::none());
    put_field(&mut bytes, &Word::printed(b"FAULT"));
    put(&mut bytes, &Word::number(u64::from(number)));
    Line::of(bytes)
}

/// The line that stands for lines that were left out: when it was made, and how many they are.
pub fn lost_line(stamp: &Word, count: u64) -> Line
    ensures { result ≡ lost_text stamp.now count }
{
    let mut bytes = ArrayVec::new();
    put_field(&mut bytes, stamp);
    put_field(&mut bytes, &Word::none());
    put_field(&mut bytes, &Word::printed(b"LOST"));
    put(&mut bytes, &Word::number(count));
    Line::of(bytes)
}

// Appends a word and a blank.
fn put_field(bytes: &mut ArrayVec<u8, 600>, word: &Word)
    requires room { array_vec_len bytes.old ≤ 530 }
    requires printed { ArePrinted bytes.old.items }
    ensures text { bytes.new.items ≡ bytes.old.items ++ field word.now }
    ensures len { array_vec_len bytes.new ≤ array_vec_len bytes.old + 65 }
    ensures printed { ArePrinted bytes.new.items }
{
    put(bytes, word);
    bytes.push(b' ');
}

// Appends a blank and a word, if there is one.
fn put_lack(bytes: &mut ArrayVec<u8, 600>, lack: &Option<Word>)
    requires room { array_vec_len bytes.old ≤ 529 }
    requires printed { ArePrinted bytes.old.items }
    ensures text { bytes.new.items ≡ bytes.old.items ++ lack_text lack.now }
    ensures len { array_vec_len bytes.new ≤ array_vec_len bytes.old + 65 }
    ensures printed { ArePrinted bytes.new.items }
{
    if let Some(word) = lack {
        bytes.push(b' ');
        put(bytes, word);
    }
}

// Appends a word.
fn put(bytes: &mut ArrayVec<u8, 600>, word: &Word)
    requires room { array_vec_len bytes.old ≤ 530 }
    requires printed { ArePrinted bytes.old.items }
    ensures text { bytes.new.items ≡ bytes.old.items ++ word.now }
    ensures len { array_vec_len bytes.new ≤ array_vec_len bytes.old + 64 }
    ensures printed { ArePrinted bytes.new.items }
{
    match bytes.try_extend_from_slice(word.as_slice()) {
        Ok(()) => {}
        Err(_) => unreachable!(),
    }
}
