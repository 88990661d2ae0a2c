// A line of bases: `B BASES`, or `B` alone for none.
ghost use Rattle.std.specs.Prelude.{◌≡◌};
ghost use Rattle.std.specs.Option.{option_map};
ghost use Rattle.line_text.specs.Bases.{bases_line};

use crate::line;
use table_text::parts;

// A column has at most so many places.
pub const PLACES: usize = 1100;

// The bases of a line.
pub fn read_bases(line: &[u8]) -> Option<&[u8]>
    ensures { option_map (λ bases. bases.now) result ≡ bases_line line.now }
{
    let start = line::read_tag(line, b"B")?;
    if line.len() < start {
        return Some(&line[..0]);
    }
    let end = parts::part_end(line, start, b' ');
    if end < line.len() {
        return None;
    }
    let bases = &line[start..end];
    let short = (1 <= bases.len()) & (bases.len() <= PLACES);
    short.then_some(bases)
}
