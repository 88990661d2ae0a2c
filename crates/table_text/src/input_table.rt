// The input table of duplex-table: its names and its rows.
ghost use Rattle.table_text.specs.InputTable.{input_names};
ghost use Rattle.table_text.specs.Rows.{row_of};

use crate::position;
use crate::reading::Row;
use codec_duplex::position::Position;

// A line of the input table: two positions and nothing after them.
impl Row for (Position, Position) {
    ghost names = { input_names };

    ghost line_of = { row_of };

    fn names() -> &'static [u8] {
        b"BA QA DA EA BB QB DB EB"
    }

    fn read(line: &[u8]) -> Option<(Position, Position)> {
        let (first, at_second) = position::read_position(line, 0)?;
        let (second, next) = position::read_position(line, at_second)?;
        (line.len() < next).then_some((first, second))
    }
}
