// What is read off a ledger: the filtered records and the rate of disagreement.
ghost use Rattle.std.specs.Prelude.{false, ◌≡◌, ◌+◌, ◌*◌, ◌<◌, ◌^◌};
ghost use Rattle.codec_stats.specs.Ledger as defs;

use crate::ledger::Ledger;
use crate::refusals::is_too_large;
use caller::refusal::LedgerRefusal;

#[derive(Clone, Copy, Debug, PartialEq)]
pub struct LedgerRates {
    pub filtered: u64,
    pub rate: f64,
    pub millionths: u64,
}

// Ten numbers of at most 2^41, so the sum has at most 45 bits. That stays a clause: a type for it would be made at each call of a ledger that a
// host hands in.
#[tactic(auto, using(crate::proofs::Small::reasons_fit, crate::proofs::Small::filtered_is_sum))]
pub fn filtered(ledger: Ledger) -> u64
    requires { defs.too_large ledger ≡ false }
    ensures { result ≡ defs.filtered ledger }
{
    ledger.reasons.iter().sum()
}

pub fn duplex_disagreement_rate(ledger: Ledger) -> f64
    requires { defs.too_large ledger ≡ false }
    ensures { result ≡ defs.rate ledger }
{
    if ledger.duplex_bases == 0 {
        return 0.0;
    }
    (ledger.disagreements as f64) / (ledger.duplex_bases as f64)
}

// A remainder of a division by at most 2^41, with a digit 0 after it: the only product, and it has at most 45 bits.
fn tenfold(rest: u64) -> u64
    requires { rest < 2 ^ 41 }
    ensures value { result ≡ rest * 10 }
    ensures upper_bound { result < 2 ^ 45 }
{
    rest * 10
}

// One digit more, by shifts and additions: 8 and 2 times the number are 10 times.
fn with_digit(number: u64, digit: u64) -> u64
    requires { number * 10 + digit < 2 ^ 61 }
    ensures { result ≡ number * 10 + digit }
{
    (number << 3) + (number << 1) + digit
}

// How many digits after the point make millionths.
const DIGITS: usize = 6;

// The same rate in whole numbers, rounded down: a long division with six digits after the point, for a board without a wide multiply.
pub fn millionths(ledger: Ledger) -> u64
    requires { defs.too_large ledger ≡ false }
    ensures { result ≡ defs.millionths ledger }
{
    let disagreements = ledger.disagreements;
    let bases = ledger.duplex_bases;
    if bases == 0 {
        return 0;
    }
    let mut quotient = disagreements / bases;
    let mut rest = disagreements % bases;
    for _digit in 0..DIGITS {
        let product = tenfold(rest);
        quotient = with_digit(quotient, product / bases);
        rest = product % bases;
    }
    quotient
}

#[tactic(auto, unfolding(crate::specs::Ledger::rates_of))]
pub fn rates(ledger: Ledger) -> Result<LedgerRates, LedgerRefusal>
    ensures { result ≡ defs.rates_of ledger }
{
    if is_too_large(ledger) {
        return Err(LedgerRefusal::TooLarge);
    }
    Ok(LedgerRates {
        filtered: filtered(ledger),
        rate: duplex_disagreement_rate(ledger),
        millionths: millionths(ledger),
    })
}
