// The line of a record: `R FLAGS NAME VERDICT RANK CLIPPED POSITION START COUNT`.
ghost use Rattle.std.specs.Prelude.{◌≡◌};
ghost use Rattle.line_text.specs.Fit.{Fit, Fitting};
ghost use Rattle.line_text.specs.declared.value.Kind.TheVariants.{Signed};
ghost use Rattle.record_lines.specs.Record.{record_layout, integer_of, record_from, record_of};

use codec_records::records::Record;
use line_text::line;
use line_text::value::{Kind, Value};

// How many fields stand behind the tag.
const FIELDS: usize = 8;

#[tactic(auto, unfolding(crate::specs::Record::integer_of))]
fn integer(value: Value) -> i32
    requires { Fit (Signed 2147483647) value }
    ensures { result ≡ integer_of value }
{
    match value {
        Value::Nothing => 0,
        Value::Number(n) => n as i32,
        Value::Below(n) => -1 - ((n - 1) as i32),
    }
}

#[tactic(auto, unfolding(crate::specs::Record::record_from))]
fn record_from(values: &[Value; FIELDS]) -> Record
    requires { Fitting record_layout values.now }
    ensures { result ≡ record_from values.now }
{
    Record {
        flags: values[0].magnitude() as u16,
        name: values[1].magnitude() as u32,
        verdict: values[2].magnitude() == 1,
        rank: integer(values[3]),
        clipped: values[4].magnitude() as u32,
        position: values[5].magnitude() as u32,
        start: values[6].magnitude() as u32,
        count: values[7].magnitude() as u32,
    }
}

// The record of a line.
pub fn record_line(line: &[u8]) -> Option<Record>
    ensures { result ≡ record_of line.now }
{
    let layout = [
        Kind::Plain(65535),
        Kind::Plain(4294967295),
        Kind::Plain(1),
        Kind::Signed(2147483647),
        Kind::Plain(4294967295),
        Kind::Plain(4294967295),
        Kind::Plain(4294967295),
        Kind::Plain(4294967295),
    ];
    let values = line::read_line(line, b"R", &layout)?;
    Some(record_from(&values))
}
