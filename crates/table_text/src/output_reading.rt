// The output table as another caller sends it: its names and its positions.
ghost use Rattle.table_text.specs.OutputReading.{partner_names};
ghost use Rattle.table_text.specs.Rows.{position_line};

use crate::position;
use crate::reading::Row;
use codec_duplex::position::Position;

// A line of the output table: one position and nothing after it.
impl Row for Position {
    ghost names = { partner_names };

    ghost line_of = { position_line };

    fn names() -> &'static [u8] {
        b"BASE QUAL DEPTH ERR"
    }

    fn read(line: &[u8]) -> Option<Position> {
        let (position, next) = position::read_position(line, 0)?;
        (line.len() < next).then_some(position)
    }
}
