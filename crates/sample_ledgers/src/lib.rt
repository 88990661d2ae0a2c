// Document 02, Req 01: the ledgers of up to 96 samples, beside the run's.
#![tactic(auto)]

pub mod samples;
