//! The lines of a source.
ghost use Rattle.std.specs.Prelude.{◌≡◌, ◌<◌, ◌∷◌, length};
ghost use Rattle.mcs_reader.specs.Line.{lines, columns_1_to_72, without_return as without_return_of};
ghost use Rattle.mcs_reader.specs.Segment.{IsLine};

use memchr::memchr;

/// The last column that is read. Columns 73 to 80 are no part of a statement.
const LAST_COLUMN: usize = 72;

/// The first line, without its end, and the source after it.
#[inline]
pub(crate) fn split_line(source: &[u8]) -> (&[u8], &[u8])
    requires { 0 < length source.now }
    ensures line { lines source.now ≡ result.0.now ∷ lines result.1.now }
    ensures one_line { IsLine result.0.now }
    ensures shorter { length result.1.now < length source.now }
{
    match memchr(b'\n', source) {
        Some(end) => {
            let (line, after) = source.split_at(end);
            let (_, after) = after.split_at(1);
            (line, after)
        }
        None => (source, &[]),
    }
}

/// The part of a line that is read.
#[inline]
pub(crate) fn columns_of(line: &[u8]) -> &[u8]
    ensures { result.now ≡ columns_1_to_72 line.now }
{
    let line = without_return(line);
    let (read, _) = line.split_at(LAST_COLUMN.min(line.len()));
    read
}

/// A line without the carriage return that ends it.
#[inline]
fn without_return(line: &[u8]) -> &[u8]
    ensures { result.now ≡ without_return_of line.now }
{
    let len = line.len();
    if len > 0 && line[len - 1] == b'\r' {
        let (read, _) = line.split_at(len - 1);
        read
    } else {
        line
    }
}
