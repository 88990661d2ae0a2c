// Reading a table, whatever its names and its rows: the names, then one row a line.
ghost use Rattle.std.specs.Prelude.{◌≡◌, ◌≤◌, ◌<◌, List, ℕ, Option, length};
ghost use Rattle.table_text.specs.Reading.{NamesRead, LineRead, TableNames, NextRead, read_table, table_at};

use crate::parts;

// The names and 2,048 positions.
pub const LAST_LINE: usize = 2049;

// A table has a malformed line, and this is the first.
#[derive(Clone, Copy, Debug, PartialEq, Eq)]
pub struct Malformed {
    pub line: usize,
}

// A row of a table whose first line is `names`.
pub trait Row: Copy {
    ghost names: { List ℕ };

    ghost line_of: { List ℕ → Option Self };

    fn names() -> &'static [u8]
        ensures { result.now ≡ names };

    // The row that a line says.
    fn read(line: &[u8]) -> Option<Self>
        ensures { result ≡ line_of line.now };
}

// Where the first line after the names begins.
fn after_line(text: &[u8], names: &[u8]) -> Option<usize>
    ensures { NamesRead names.now text.now result }
{
    let end = parts::part_end(text, 0, b'\n');
    if end < text.len() && &text[..end] == names {
        Some(end + 1)
    } else {
        None
    }
}

// Where the line that begins at `at` ends, if it may hold a row: there is a line feed, and it is not past the last.
fn line_end(text: &[u8], line: usize, at: usize) -> Option<usize>
    requires { at < length text.now }
    ensures { LineRead text.now line at result }
{
    if LAST_LINE < line {
        return None;
    }
    let end = parts::part_end(text, at, b'\n');
    if end < text.len() { Some(end) } else { None }
}

// Where the first row begins, if the names are a table's of such rows.
pub fn after_names<R: Row>(text: &[u8]) -> Option<usize>
    ensures { TableNames R.names R.line_of text.now result }
{
    after_line(text, R::names())
}

// The row of the line that begins at `at`, and where the line after it begins.
pub fn next_row<R: Row>(text: &[u8], line: usize, at: usize) -> Option<(R, usize)>
    requires { at < length text.now }
    ensures { NextRead R.line_of text.now line at result }
{
    let end = line_end(text, line, at)?;
    let row = R::read(&text[at..end])?;
    Some((row, end + 1))
}

// The end of a row says where the next begins: no range and no chain has these places.
fn check_rows<R: Row>(text: &[u8], start: usize) -> Result<(), Malformed>
    requires { start ≤ length text.now }
    ensures { result ≡ (table_at R.line_of text.now 2 start).ending }
{
    let mut line = 2;
    let mut at = start;
    while at < text.len() {
        let (_, after) = next_row::<R>(text, line, at).ok_or(Malformed { line })?;
        line += 1;
        at = after;
    }
    Ok(())
}

// The first malformed line of a table of such rows, or that there is none.
pub fn check_table<R: Row>(text: &[u8]) -> Result<(), Malformed>
    ensures { result ≡ (read_table R.names R.line_of text.now).ending }
{
    let start = after_names::<R>(text).ok_or(Malformed { line: 1 })?;
    check_rows::<R>(text, start)
}
