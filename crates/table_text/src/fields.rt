// The fields of a line, read one after the other.
//
// A field is followed by a space or by the end of its line. `next` is the place after that, so that past the end of the
// line there is no field.
ghost use Rattle.std.specs.Prelude.{◌≡◌};
ghost use Rattle.table_text.specs.Fields.{is_base, fields_from, base_field, number_field, read_in};

use crate::{decimal, parts};

// Of one byte of a text; codec_family asks the same of whole strands, in vector code.
fn is_base(byte: u8) -> bool
    ensures { result ≡ is_base byte }
{
    matches!(byte, b'A' | b'C' | b'G' | b'T' | b'N' | b'n')
}

// The field at `at`, one of the bases, and the place after it.
pub fn read_base(line: &[u8], at: usize) -> Option<(u8, usize)>
    ensures { read_in line.now result ≡ base_field (fields_from line.now at) }
{
    if line.len() < at {
        return None;
    }
    let end = parts::part_end(line, at, b' ');
    match &line[at..end] {
        &[base] if is_base(base) => Some((base, end + 1)),
        _ => None,
    }
}

// The field at `at`, a decimal at most the limit, and the place after it. A closure for what is read of a field is no shorter than the four
// lines around it.
pub fn read_number(line: &[u8], at: usize, limit: u64) -> Option<(u64, usize)>
    ensures { read_in line.now result ≡ number_field limit (fields_from line.now at) }
{
    if line.len() < at {
        return None;
    }
    let end = parts::part_end(line, at, b' ');
    let value = decimal::read_decimal(&line[at..end], limit)?;
    Some((value, end + 1))
}
