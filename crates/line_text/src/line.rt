// A line as a tag and fields that a layout describes.
ghost use Rattle.std.specs.Prelude.{◌≡◌};
ghost use Rattle.std.specs.Option.{option_map};
ghost use Rattle.table_text.specs.Fields.{fields_from, fields_of};
ghost use Rattle.table_text.specs.Rows.{alone};
ghost use Rattle.line_text.specs.Line.{behind_tag, values_of, line_of};

use crate::value;
use crate::value::{Kind, Value};
use table_text::parts;

// Where the fields behind a tag begin, if a line begins with this tag alone.
pub fn read_tag(line: &[u8], tag: &[u8]) -> Option<usize>
    ensures { option_map (fields_from line.now) result ≡ behind_tag tag.now (fields_of line.now) }
{
    let end = parts::part_end(line, 0, b' ');
    (&line[..end] == tag).then_some(end + 1)
}

// The values of the fields from a place on, one for each kind of the layout, and none after them.
pub fn read_fields<const N: usize>(
    line: &[u8],
    start: usize,
    layout: &[Kind; N],
) -> Option<[Value; N]>
    ensures { result ≡ alone (values_of layout.now (fields_from line.now start)) }
{
    let mut values = [Value::Nothing; N];
    let mut at = start;
    for (i, &kind) in layout.iter().enumerate() {
        let (value, next) = value::read_field(line, at, kind)?;
        values[i] = value;
        at = next;
    }
    (line.len() < at).then_some(values)
}

// The values of a line with this tag, by its layout.
pub fn read_line<const N: usize>(line: &[u8], tag: &[u8], layout: &[Kind; N]) -> Option<[Value; N]>
    ensures { result ≡ line_of tag.now layout.now line.now }
{
    let start = read_tag(line, tag)?;
    read_fields(line, start, layout)
}
