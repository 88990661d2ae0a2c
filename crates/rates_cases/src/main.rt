// The rate in millionths of ledgers at its edges, one line each: both counts, and the rate or refusal 10.
#![tactic(auto)]

use codec_stats::ledger::Ledger;
use codec_stats::rates::rates;
use codec_stats::refusals::COUNTER_LIMIT;
use std::io;

// Disagreements and duplex bases.
const CASES: [(u64, u64); 15] = [
    (0, 0),
    (COUNTER_LIMIT, 0),
    (0, 5),
    (1, 3),
    (2, 3),
    (1, 1000000),
    (1, 1000001),
    (COUNTER_LIMIT - 1, COUNTER_LIMIT),
    (COUNTER_LIMIT, COUNTER_LIMIT),
    (COUNTER_LIMIT, COUNTER_LIMIT - 1),
    (COUNTER_LIMIT, 7),
    (COUNTER_LIMIT, 3),
    (COUNTER_LIMIT, 1),
    (COUNTER_LIMIT + 1, 1),
    (1, COUNTER_LIMIT + 1),
];

fn main(rt: HostRuntime) -> io::Result<()> {
    for (disagreements, duplex_bases) in CASES {
        let found = rates(Ledger {
            disagreements,
            duplex_bases,
            ..Ledger::default()
        });
        match found {
            Ok(rates) => println!(&rt; "{disagreements} of {duplex_bases}: {}", rates.millionths)?,
            Err(refusal) => {
                println!(&rt;
                    "{disagreements} of {duplex_bases}: refused {}",
                    refusal.number()
                )?
            }
        }
    }
    Ok(())
}
