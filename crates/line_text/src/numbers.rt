// A line of numbers: `O W W ..`, `Q q q ..`, `D d d ..`, `E e e ..`.
ghost use Rattle.std.specs.Prelude.{◌≡◌, ℕ, ◌≤◌, length, map, take, IfSome};
ghost use Rattle.std.specs.Option.{option_map};
ghost use Rattle.table_text.specs.Fields.{fields_from};
ghost use Rattle.line_text.specs.Numbers.{numbers_of, numbers_line};

use crate::line;
use table_text::fields;

// An entry of a column: the numbers of a type, up to its greatest. TryFrom would ask again what the limit has asked.
pub trait Entry: Copy {
    ghost number: { Self → ℕ };

    ghost GREATEST: { ℕ };

    const GREATEST: u64;

    fn of(n: u64) -> Self
        requires { n ≤ GREATEST }
        ensures { number result ≡ n };
}

impl Entry for u8 {
    ghost number = { λ n. n };

    ghost GREATEST = { 255 };

    const GREATEST: u64 = 255;

    fn of(n: u64) -> u8 {
        n as u8
    }
}

impl Entry for u16 {
    ghost number = { λ n. n };

    ghost GREATEST = { 65535 };

    const GREATEST: u64 = 65535;

    fn of(n: u64) -> u16 {
        n as u16
    }
}

impl Entry for u32 {
    ghost number = { λ n. n };

    ghost GREATEST = { 4294967295 };

    const GREATEST: u64 = 4294967295;

    fn of(n: u64) -> u32 {
        n as u32
    }
}

impl Entry for u64 {
    ghost number = { λ n. n };

    ghost GREATEST = { 18446744073709551615 };

    const GREATEST: u64 = u64::MAX;

    fn of(n: u64) -> u64 {
        n
    }
}

// The fields from a place on, in the first places of a column: how many they are.
pub fn read_column<T: Entry>(line: &[u8], start: usize, column: &mut [T]) -> Option<usize>
    ensures size { length column.new ≡ length column.old }
    ensures bound { IfSome result (λ n. n ≤ length column.new) }
    ensures numbers { option_map (λ n. map T.number (take n column.new)) result ≡ numbers_of (length column.old) T.GREATEST (fields_from line.now start) }
{
    let mut at = start;
    for n in 0..column.len() {
        if line.len() < at {
            return Some(n);
        }
        let (number, next) = fields::read_number(line, at, T::GREATEST)?;
        column[n] = T::of(number);
        at = next;
    }
    (line.len() < at).then_some(column.len())
}

// The numbers behind a tag, read into the first places of a column.
pub fn read_numbers<'a, T: Entry>(line: &[u8], tag: &[u8], column: &'a mut [T]) -> Option<&'a [T]>
    ensures { option_map (λ numbers. map T.number numbers.now) result ≡ numbers_line tag.now T.GREATEST (length column.old) line.now }
{
    let start = line::read_tag(line, tag)?;
    let n = read_column(line, start, column)?;
    Some(&column[..n])
}
