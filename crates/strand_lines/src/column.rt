// A strand's columns, a line each.
ghost use Rattle.std.specs.Prelude.{◌≤◌, ◌≡◌, length, map};
ghost use Rattle.line_text.specs.Bases.{bases_line};
ghost use Rattle.line_text.specs.Numbers.{numbers_line};
ghost use Rattle.line_text.specs.Reading.{Reads, lines_from, one_line};

use line_text::lines::Stop;
use line_text::numbers::Entry;
use line_text::{bases, lines, numbers};

// A line of a strand's bases, which stay where they are in the text.
pub fn next_bases(text: &[u8], at: usize) -> Result<(&[u8], usize), Stop>
    requires { at ≤ length text.now }
    ensures { Reads (λ bases. bases.now) text.now result (one_line bases_line (lines_from text.now at)) }
{
    lines::next_line(text, at, bases::read_bases)
}

// A line of numbers behind a tag, read into the first places of a column.
pub fn next_numbers<'a, T: Entry>(
    text: &[u8],
    at: usize,
    tag: &[u8],
    column: &'a mut [T],
) -> Result<(&'a [T], usize), Stop>
    requires { at ≤ length text.now }
    ensures { Reads (λ numbers. map T.number numbers.now) text.now result (one_line (numbers_line tag.now T.GREATEST (length column.old)) (lines_from text.now at)) }
{
    lines::next_line(text, at, |line| numbers::read_numbers(line, tag, column))
}
