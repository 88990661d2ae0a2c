// What a host is told.
ghost use Rattle.std.specs.Prelude.{◌≡◌};
ghost use Rattle.partner_table.specs.Check.{checked};
ghost use Rattle.partner_table.specs.Reported.{reported_check};

use crate::compare::check_tables;
use crate::fault::Fault;

// Numbers, since no enum crosses the C interface: kind 0 is accepted; 1 has a line and a field, 2 a refusal's number, a line and its table.
#[repr(C)]
#[derive(Clone, Copy, Debug, PartialEq, Eq)]
pub struct PartnerAnswer {
    pub kind: u32,
    pub number: u32,
    pub line: u64,
    pub field: u32,
    pub table: u32,
}

impl From<Result<(), Fault>> for PartnerAnswer {
    ghost from_gives = { λ answer told. told ≡ reported_check answer };

    fn from(answer: Result<(), Fault>) -> PartnerAnswer {
        let accepted = PartnerAnswer {
            kind: 0,
            number: 0,
            line: 0,
            field: 0,
            table: 0,
        };
        match answer {
            Ok(()) => accepted,
            Err(Fault::Wrong { line, field }) => PartnerAnswer {
                kind: 1,
                line: line as u64,
                field: u32::from(field),
                ..accepted
            },
            Err(Fault::Malformed { whose, line }) => PartnerAnswer {
                kind: 2,
                number: 27,
                line: line as u64,
                table: u32::from(whose),
                ..accepted
            },
            Err(Fault::UnequalLines) => PartnerAnswer {
                kind: 2,
                number: 28,
                ..accepted
            },
        }
    }
}

// The check as a host is told of it.
pub fn report_tables(ours: &[u8], theirs: &[u8]) -> PartnerAnswer
    ensures { result ≡ reported_check (checked ours.now theirs.now) }
{
    PartnerAnswer::from(check_tables(ours, theirs))
}
