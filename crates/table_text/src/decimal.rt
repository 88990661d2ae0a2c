// Decimals without leading zeros, read from a field and written into a buffer.
ghost use Rattle.std.specs.Prelude.{◌≡◌, ◌+◌, ◌≤◌, length};
ghost use Rattle.std.proofs.lemmas.List.Edits.{sets};
ghost use Rattle.table_text.specs.Decimal.{plain, with_digit, digits_number, number, decimal};

// A 0 in front of another digit is not plain.
fn starts_plain(field: &[u8]) -> bool
    ensures { result ≡ plain field.now }
{
    match field {
        [] => false,
        [_] => true,
        [first, ..] => *first != b'0',
    }
}

// One more digit.
fn with_digit(value: u64, byte: u8, limit: u64) -> Option<u64>
    ensures { result ≡ with_digit limit value byte }
{
    if !byte.is_ascii_digit() {
        return None;
    }
    let next = value.checked_mul(10)?.checked_add(u64::from(byte - b'0'))?;
    (next <= limit).then_some(next)
}

fn read_digits(field: &[u8], limit: u64) -> Option<u64>
    ensures { result ≡ digits_number limit 0 field.now }
{
    let mut value = 0;
    for &byte in field {
        value = with_digit(value, byte, limit)?;
    }
    Some(value)
}

// The number of a field, however long the field is.
pub fn read_decimal(field: &[u8], limit: u64) -> Option<u64>
    ensures { result ≡ number limit field.now }
{
    if starts_plain(field) {
        read_digits(field, limit)
    } else {
        None
    }
}

// Writes the digits of n from place `to` on, and answers the place after them. The place goes on from digit to digit as a value: kept in a
// page, each digit waits until the one before has stored it.
pub fn write_decimal(n: u64, output: &mut [u8], to: usize) -> usize
    requires { to + length (decimal n) ≤ length output.old }
    ensures value { result ≡ to + length (decimal n) }
    ensures output_after { output.new ≡ sets output.old to (decimal n) }
{
    if n < 10 {
        output[to] = b'0' + n as u8;
        return to + 1;
    }
    let last = write_decimal(n / 10, output, to);
    output[last] = b'0' + (n % 10) as u8;
    last + 1
}
