// Document 01's cases of the disagreement limits, one line each.
#![tactic(auto)]

use codec_duplex::limits::{Disagreement, Limits};
use codec_duplex::tally::DuplexBaseTally;
use std::io;

// A name, disagreements, both-called positions, the count limit and the rate limit.
const CASES: [(&str, u32, u32, u64, f64); 10] = [
    ("1 of 4 at 0.25", 1, 4, 9, 0.25),
    ("1 of 4 at 0.2", 1, 4, 9, 0.2),
    ("4 of 4 at NaN", 4, 4, 9, f64::NAN),
    ("0 of 1 at -1", 0, 1, 9, -1.0),
    ("0 of 0 at -1 and count 0", 0, 0, 0, -1.0),
    ("0 of 1 at -0.0", 0, 1, 9, -0.0),
    ("0 of 1 at -infinity", 0, 1, 9, f64::NEG_INFINITY),
    ("4 of 4 at infinity", 4, 4, 9, f64::INFINITY),
    ("3 of 4 at count 3", 3, 4, 3, 1.0),
    ("4 of 4 at count 3 and rate 0", 4, 4, 3, 0.0),
];

fn main(rt: HostRuntime) -> io::Result<()> {
    for (name, disagreements, bases, max_disagreements, max_rate) in CASES {
        let tally = DuplexBaseTally {
            bases,
            disagreements,
        };
        let limits = Limits {
            max_disagreements,
            max_rate,
        };
        let verdict = match limits.judge(tally) {
            Ok(_) => "passes",
            Err(Disagreement::Count(_)) => "too many",
            Err(Disagreement::Rate(_)) => "rate too high",
        };
        println!(&rt; "{name}: {verdict}")?;
    }
    Ok(())
}
