// What is wrong with a partner's table, or with ours.
ghost use Rattle.std.specs.Prelude.{◌≡◌, Some};
ghost use Rattle.partner_table.specs.Reported.{field_number, table_number, fault_text};

use std::fmt;

// Whose table it is, by the number that a host is told.
#[derive(Clone, Copy, Debug, PartialEq, Eq)]
pub enum Whose {
    Ours = 1,
    Theirs = 2,
}

impl From<Whose> for u32 {
    ghost from_gives = { λ whose n. n ≡ table_number whose };

    fn from(whose: Whose) -> u32 {
        whose as u32
    }
}

// A field of a line, by its place.
#[derive(Clone, Copy, Debug, PartialEq, Eq)]
pub enum Field {
    Base = 1,
    Quality = 2,
    Depth = 3,
    Error = 4,
}

impl From<Field> for u32 {
    ghost from_gives = { λ field n. n ≡ field_number field };

    fn from(field: Field) -> u32 {
        field as u32
    }
}

// Lines count from 1, the names.
#[derive(Clone, Copy, Debug, PartialEq, Eq)]
pub enum Fault {
    Malformed { whose: Whose, line: usize },
    UnequalLines,
    Wrong { line: usize, field: Field },
}

impl fmt::Display for Fault {
    ghost output = { λ fault. Some (fault_text fault) };

    fn fmt<W: fmt::Write>(&self, f: &mut fmt::Formatter<W>) -> fmt::Result {
        match *self {
            Fault::Malformed { whose, line } => write!(f, "refused 27 {line} {}", u32::from(whose)),
            Fault::UnequalLines => f.write_str("refused 28 0"),
            Fault::Wrong { line, field } => write!(f, "wrong {line} {}", u32::from(field)),
        }
    }
}
