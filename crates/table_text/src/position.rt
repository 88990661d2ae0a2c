// One position as four fields of a line.
ghost use Rattle.std.specs.Prelude.{◌≡◌};
ghost use Rattle.table_text.specs.Fields.{fields_from, read_in};
ghost use Rattle.table_text.specs.Rows.{position_fields};

use crate::fields;
use codec_duplex::position::Position;

// The four fields from `at` on, and the place after them.
pub fn read_position(line: &[u8], at: usize) -> Option<(Position, usize)>
    ensures { read_in line.now result ≡ position_fields (fields_from line.now at) }
{
    let (base, at_quality) = fields::read_base(line, at)?;
    let (quality, at_depth) = fields::read_number(line, at_quality, 255)?;
    let (depth, at_error) = fields::read_number(line, at_depth, 65535)?;
    let (error, next) = fields::read_number(line, at_error, 65535)?;
    let position = Position {
        base,
        quality: quality as u8,
        depth: depth as u16,
        error: error as u16,
    };
    Some((position, next))
}
