// What a family call answers, as numbers: an enum cannot cross the boundary.
ghost use Rattle.std.specs.Prelude.{◌≡◌};
ghost use Rattle.codec_family.specs.Answer.{reported, reported_answer};

use crate::ending::Ending;
use caller::reason::RejectionReason;
use codec_stats::ledger::Ledger;

// The kinds of an ending.
pub const CALLED: u32 = 0;

pub const EMPTY: u32 = 1;

pub const NO_STRAND: u32 = 2;

pub const REJECTED: u32 = 3;

pub const REFUSED: u32 = 4;

// A call has the duplex's length, a rejection the reason's number, a refusal its number and what goes with it.
#[repr(C)]
#[derive(Clone, Copy, Debug, Default, PartialEq, Eq, Hash)]
pub struct FamilyEnding {
    pub kind: u32,
    pub number: u32,
    pub with: u64,
    pub length: u64,
}

// How the family ends, the length of the handover list, and the ledger.
#[repr(C)]
#[derive(Clone, Copy, Debug, Default, PartialEq, Eq, Hash)]
pub struct FamilyAnswer {
    pub ending: FamilyEnding,
    pub listed: u64,
    pub ledger: Ledger,
}

// The same, the ending as itself.
#[derive(Clone, Copy)]
pub struct Answer {
    pub ending: Ending,
    pub listed: usize,
    pub ledger: Ledger,
}

impl From<Ending> for FamilyEnding {
    ghost from_gives = { λ ending told. told ≡ reported ending };

    fn from(ending: Ending) -> FamilyEnding {
        let none = FamilyEnding::default();
        match ending {
            Ending::Called(length) => FamilyEnding {
                kind: CALLED,
                length,
                ..none
            },
            Ending::Empty => FamilyEnding {
                kind: EMPTY,
                ..none
            },
            Ending::NoStrand => FamilyEnding {
                kind: NO_STRAND,
                ..none
            },
            Ending::Rejected(reason) => FamilyEnding {
                kind: REJECTED,
                number: u32::from(u8::from(reason)),
                ..none
            },
            Ending::Disagreeing(_) => FamilyEnding {
                kind: REJECTED,
                number: u32::from(u8::from(RejectionReason::HighDuplexDisagreement)),
                ..none
            },
            Ending::Refused(refusal) => FamilyEnding {
                kind: REFUSED,
                number: refusal.number(),
                with: refusal.given() as u64,
                ..none
            },
        }
    }
}

impl From<Answer> for FamilyAnswer {
    ghost from_gives = { λ answer told. told ≡ reported_answer answer };

    fn from(answer: Answer) -> FamilyAnswer {
        FamilyAnswer {
            ending: FamilyEnding::from(answer.ending),
            listed: answer.listed as u64,
            ledger: answer.ledger,
        }
    }
}
