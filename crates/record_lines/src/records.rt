// The lines of a family's records.
ghost use Rattle.std.specs.Prelude.{◌≡◌, ◌≤◌, length, min, take, IfOk};
ghost use Rattle.line_text.specs.Reading.{Reads, lines_from, mapped, one_line};
ghost use Rattle.record_lines.specs.Record.{record_of};
ghost use Rattle.record_lines.specs.Records.{records_from};

use crate::record;
use codec_records::records::Record;
use line_text::lines;
use line_text::lines::Stop;

// A family of more than 512 records is refused, whatever they are.
pub const RECORDS: usize = 512;

fn next_record(text: &[u8], at: usize) -> Result<(Record, usize), Stop>
    requires { at ≤ length text.now }
    ensures { Reads (λ r. r) text.now result (one_line record_of (lines_from text.now at)) }
{
    lines::next_line(text, at, record::record_line)
}

// As many records as announced, all of them read: the first 512.
pub fn next_records<'a>(
    text: &[u8],
    start: usize,
    count: usize,
    room: &'a mut [Record; RECORDS],
) -> Result<(&'a [Record], usize), Stop>
    requires { start ≤ length text.now }
    ensures reads { Reads (λ records. records.now) text.now result (mapped (take 512) (records_from count (lines_from text.now start))) }
    ensures counted { IfOk result (λ r. length r.0.now ≡ min count 512) }
{
    let mut at = start;
    for i in 0..count {
        let (record, after) = next_record(text, at)?;
        if i < RECORDS {
            room[i] = record;
        }
        at = after;
    }
    Ok((&room[..count.min(RECORDS)], at))
}
