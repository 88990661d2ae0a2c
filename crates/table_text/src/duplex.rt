// duplex-table: an input table in, the output table or a refusal out.
ghost use Rattle.std.specs.Prelude.{◌≡◌, ◌≤◌, length};
ghost use Rattle.lists.specs.Written.{written};
ghost use Rattle.table_text.specs.Duplex.{CombinedTable, refusal_text, standard_output};
ghost use Rattle.table_text.specs.OutputTable.{Front};

use crate::page::Page;
use crate::reading::Malformed;
use crate::{output_table, reading};
use codec_duplex::position::Position;

// Room for the longest output: 20 bytes of names, and 20 for each of 2,048 positions.
pub const OUTPUT_BYTES: usize = 40980;

// The output table, or the first malformed line, and then the buffer is left as it was.
pub fn combine_table(input: &[u8], output: &mut [u8; OUTPUT_BYTES]) -> Result<usize, Malformed>
    ensures { CombinedTable input.now output.old output.new result }
{
    reading::check_table::<(Position, Position)>(input)?;
    Ok(output_table::write_table(input, output))
}

// Writes the one line of a refusal, for which 32 bytes are room enough.
fn write_refusal(line: usize, output: &mut [u8]) -> usize
    requires { 32 ≤ length output.old }
    ensures value { result ≡ length (refusal_text 13 line) }
    ensures output_after { output.new ≡ written (refusal_text 13 line) output.old }
{
    let mut page = Page::new(output);
    page.write(b"refused 13 ");
    page.write_number(line as u64, b'\n');
    page.end
}

// What the program writes to standard output for an input.
pub fn duplex_table(input: &[u8], output: &mut [u8; OUTPUT_BYTES]) -> usize
    ensures value { result ≡ length (standard_output input.now) }
    ensures output_after { output.new ≡ written (standard_output input.now) output.old }
    ensures front { Front result output.new }
{
    match combine_table(input, output) {
        Ok(size) => size,
        Err(malformed) => write_refusal(malformed.line, output),
    }
}
