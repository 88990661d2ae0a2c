// The family call, `consensus_reads_raw`: a family's records and strands in, its duplex, rejects and ledger out.
#![tactic(auto)]

pub mod choosing;
pub mod columns;
pub mod family;
