// Refusals 10 and 11, read on a ledger's counts.
ghost use Rattle.std.specs.Prelude.{◌≡◌};
ghost use Rattle.std.specs.List.{list_all};
ghost use Rattle.codec_stats.specs.Ledger.{within_limit, too_large, full, checked};

use crate::ledger::{COUNTS, Ledger};
use caller::refusal::LedgerRefusal;

// The largest number of families, and of any other count.
pub const FAMILIES_LIMIT: u64 = 1 << 28;

pub const COUNTER_LIMIT: u64 = 1 << 41;

fn are_within(counts: &[u64]) -> bool
    ensures { result ≡ list_all within_limit counts.now }
{
    counts.iter().all(|&count| count <= COUNTER_LIMIT)
}

// The families have a limit of their own.
pub fn is_too_large(ledger: Ledger) -> bool
    ensures { result ≡ too_large ledger }
{
    let counts = <[u64; COUNTS]>::from(ledger);
    (FAMILIES_LIMIT < ledger.families) | !are_within(&counts[1..])
}

#[tactic(auto, unfolding(crate::specs::Ledger::full))]
pub fn is_full(ledger: Ledger) -> bool
    ensures { result ≡ full ledger }
{
    ledger.families == FAMILIES_LIMIT
}

// Refusal 10 goes before 11.
pub fn check(ledger: Ledger) -> Result<(), LedgerRefusal>
    ensures { result ≡ checked ledger }
{
    if is_too_large(ledger) {
        return Err(LedgerRefusal::TooLarge);
    }
    if is_full(ledger) {
        return Err(LedgerRefusal::Full);
    }
    Ok(())
}
