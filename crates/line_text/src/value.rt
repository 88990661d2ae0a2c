// One field of a line: a number, a number or `-` for none, or a number with a sign.
ghost use Rattle.std.specs.Prelude.{◌≡◌};
ghost use Rattle.table_text.specs.Fields.{fields_from, read_in};
ghost use Rattle.line_text.specs.Value.{below, plainly, or_none, signed, field_value, value_field, magnitude, is_number};

use table_text::{decimal, parts};

// What a field may say, up to a limit: a number, a number or `-` for none, or a number with a sign.
// Kinds and no closures: a layout is a table of them.
#[derive(Clone, Copy)]
pub enum Kind {
    Plain(u64),
    OrNone(u64),
    Signed(u64),
}

// What a field says: none, a number from 0 on, or how far below 0. No Option of a signed number, which has no room for all of these.
#[derive(Clone, Copy, Debug, PartialEq, Eq)]
pub enum Value {
    Nothing,
    Number(u64),
    Below(u64),
}

impl Value {
    // How far it is from 0; of none, 0.
    pub fn magnitude(self) -> u64
        ensures { result ≡ magnitude self }
    {
        match self {
            Value::Nothing => 0,
            Value::Number(n) => n,
            Value::Below(n) => n,
        }
    }

    pub fn is_number(self) -> bool
        ensures { result ≡ is_number self }
    {
        !matches!(self, Value::Nothing)
    }
}

fn read_plain(field: &[u8], limit: u64) -> Option<Value>
    ensures { result ≡ plainly limit field.now }
{
    decimal::read_decimal(field, limit).map(Value::Number)
}

#[tactic(auto, unfolding(crate::specs::Value::or_none))]
fn read_or_none(field: &[u8], limit: u64) -> Option<Value>
    ensures { result ≡ or_none limit field.now }
{
    if field == b"-".as_slice() {
        Some(Value::Nothing)
    } else {
        read_plain(field, limit)
    }
}

// Below 0 there is one number more than above it; `-0` is no spelling of 0.
#[tactic(auto, unfolding(crate::specs::Value::below))]
fn below_zero(digits: &[u8], limit: u64) -> Option<Value>
    ensures { result ≡ below limit digits.now }
{
    let magnitude = decimal::read_decimal(digits, u64::MAX)?;
    (magnitude != 0 && magnitude - 1 <= limit).then_some(Value::Below(magnitude))
}

#[tactic(auto, unfolding(crate::specs::Value::signed))]
fn read_signed(field: &[u8], limit: u64) -> Option<Value>
    ensures { result ≡ signed limit field.now }
{
    match field.strip_prefix(b"-") {
        Some(digits) => below_zero(digits, limit),
        None => read_plain(field, limit),
    }
}

#[tactic(auto, unfolding(crate::specs::Value::field_value))]
fn read_value(field: &[u8], kind: Kind) -> Option<Value>
    ensures { result ≡ field_value kind field.now }
{
    match kind {
        Kind::Plain(limit) => read_plain(field, limit),
        Kind::OrNone(limit) => read_or_none(field, limit),
        Kind::Signed(limit) => read_signed(field, limit),
    }
}

// The field at `at`, and the place after it; past the end of the line there is none.
pub(crate) fn read_field(line: &[u8], at: usize, kind: Kind) -> Option<(Value, usize)>
    ensures { read_in line.now result ≡ value_field kind (fields_from line.now at) }
{
    if line.len() < at {
        return None;
    }
    let end = parts::part_end(line, at, b' ');
    let value = read_value(&line[at..end], kind)?;
    Some((value, end + 1))
}
