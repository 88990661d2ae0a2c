// What a host is told of a ledger's rates.
ghost use Rattle.std.specs.Prelude.{◌≡◌};
ghost use Rattle.codec_stats.specs.Reported.{reported_rates};

use crate::rates::LedgerRates;
use caller::refusal::LedgerRefusal;

// A number, since no enum crosses the C interface: kind 0 has the three figures, 1 a refusal's number and what goes with it.
#[repr(C)]
#[derive(Clone, Copy, Debug, Default, PartialEq)]
pub struct RatesAnswer {
    pub kind: u32,
    pub number: u32,
    pub with: u64,
    pub filtered: u64,
    pub rate: f64,
    pub millionths: u64,
}

const RATES: u32 = 0;

const REFUSED: u32 = 1;

impl From<Result<LedgerRates, LedgerRefusal>> for RatesAnswer {
    ghost from_gives = { λ found answer. answer ≡ reported_rates found };

    fn from(found: Result<LedgerRates, LedgerRefusal>) -> RatesAnswer {
        match found {
            Ok(rates) => RatesAnswer {
                kind: RATES,
                filtered: rates.filtered,
                rate: rates.rate,
                millionths: rates.millionths,
                ..RatesAnswer::default()
            },
            Err(refusal) => RatesAnswer {
                kind: REFUSED,
                number: refusal.number(),
                ..RatesAnswer::default()
            },
        }
    }
}
