// The output table of duplex-table: its names and a line for each position.
ghost use Rattle.std.specs.Prelude.{◌≡◌, ◌+◌, ◌≤◌, length};
ghost use Rattle.lists.specs.Written.{written};
ghost use Rattle.table_text.specs.InputTable.{table_of, table_from};
ghost use Rattle.table_text.specs.OutputTable.{number_text, position_text, rows_text, output_table};
ghost use Rattle.table_text.specs.Page.{HasRoom, Appends};

use crate::page::Page;
use crate::reading;
use codec_duplex::position;
use codec_duplex::position::Position;

// 16 bits are at most five digits.
fn write_short(page: &mut Page, n: u16, after: u8)
    requires { HasRoom 6 page.old }
    ensures appended { Appends (number_text n after) page.old page.new }
    ensures upper_bound { page.new.end ≤ page.old.end + 6 }
{
    page.write_number(u64::from(n), after);
}

// Writes a position's line, for which 20 bytes are room enough.
pub fn write_position(page: &mut Page, p: Position)
    requires { HasRoom 20 page.old }
    ensures appended { Appends (position_text p) page.old page.new }
    ensures upper_bound { page.new.end ≤ page.old.end + 20 }
{
    page.push(p.base);
    page.push(b' ');
    write_short(page, u16::from(p.quality), b' ');
    write_short(page, p.depth, b' ');
    write_short(page, p.error, b'\n');
}

// Combines the rows up to the first malformed line. The end of a row says where the next begins: no range and no chain has these places.
fn write_rows(page: &mut Page, input: &[u8], start: usize)
    requires start_in_bounds { start ≤ length input.now }
    requires room { HasRoom 40960 page.old }
    ensures { Appends (rows_text (table_from input.now 2 start).rows) page.old page.new }
{
    let mut line = 2;
    let mut at = start;
    while at < input.len() {
        let Some(((first, second), after)) = reading::next_row(input, line, at) else {
            return;
        };
        write_position(page, position::combine(first, second));
        line += 1;
        at = after;
    }
}

// The names and the combined rows; of a table with a malformed line, the rows before it.
pub(crate) fn write_table(input: &[u8], output: &mut [u8]) -> usize
    requires { 40980 ≤ length output.old }
    ensures value { result ≡ length (output_table (table_of input.now).rows) }
    ensures output_after { output.new ≡ written (output_table (table_of input.now).rows) output.old }
{
    let mut page = Page::new(output);
    page.write(b"BASE QUAL DEPTH ERR\n");
    let Some(start) = reading::after_names::<(Position, Position)>(input) else {
        return page.end;
    };
    write_rows(&mut page, input, start);
    page.end
}
