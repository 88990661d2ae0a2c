// Why a family call is not accepted, and the number and what goes with it that a host is told.
ghost use Rattle.std.specs.Prelude.{◌≡◌};
ghost use Rattle.caller.specs.Refusals.{ledger_number, number_of, given_of};
ghost use Rattle.caller.specs.declared.refusal.Refusal.TheVariants.{Ledger};

// The strand of R1's records, or of R2's.
#[derive(Clone, Copy, Debug, PartialEq, Eq, Hash)]
pub enum ReadType {
    R1,
    R2,
}

// Why a ledger is not accepted.
#[derive(Clone, Copy, Debug, PartialEq, Eq, Hash)]
pub enum LedgerRefusal {
    // A count is above its limit.
    TooLarge = 10,
    // No further family can be counted.
    Full = 11,
}

// In the order in which they are asked, but for the last, which comes before all others.
#[derive(Clone, Copy, Debug, PartialEq, Eq, Hash)]
pub enum Refusal {
    // The minimum duplex length.
    MinimumTooLong,
    // More records or operation words than there is room for.
    TooManyRecords,
    // A record's part of the operations, with the record's number.
    BadPart(usize),
    // An operation of its part.
    BadOperation(usize),
    // Its clipped length.
    BadLength(usize),
    // Its position, or its reference bases.
    BadPlace(usize),
    // A strand's columns are of unequal length, or too long.
    BadColumns(ReadType),
    BadBase(ReadType),
    // What is lent for the answer.
    TooNarrow,
    Ledger(LedgerRefusal),
    NoSuchSample,
}

// Methods and no From: a host is told two numbers of a refusal, this one and what goes with it.
impl LedgerRefusal {
    pub fn number(self) -> u32
        ensures { result ≡ ledger_number self }
    {
        self as u32
    }
}

impl Refusal {
    pub fn number(self) -> u32
        ensures { result ≡ number_of self }
    {
        match self {
            Refusal::MinimumTooLong => 1,
            Refusal::TooManyRecords => 2,
            Refusal::BadPart(_) => 3,
            Refusal::BadOperation(_) => 4,
            Refusal::BadLength(_) => 5,
            Refusal::BadPlace(_) => 6,
            Refusal::BadColumns(_) => 7,
            Refusal::BadBase(_) => 8,
            Refusal::TooNarrow => 9,
            Refusal::Ledger(refusal) => refusal.number(),
            Refusal::NoSuchSample => 20,
        }
    }

    // What goes with the number: a record, or 0 for R1's strand and 1 for R2's.
    pub fn given(self) -> usize
        ensures { result ≡ given_of self }
    {
        match self {
            Refusal::BadPart(record)
            | Refusal::BadOperation(record)
            | Refusal::BadLength(record)
            | Refusal::BadPlace(record) => record,
            Refusal::BadColumns(strand) | Refusal::BadBase(strand) => strand as usize,
            _ => 0,
        }
    }
}

impl From<LedgerRefusal> for Refusal {
    ghost from_gives = { λ why refusal. refusal ≡ Ledger why };

    fn from(why: LedgerRefusal) -> Refusal {
        Refusal::Ledger(why)
    }
}
