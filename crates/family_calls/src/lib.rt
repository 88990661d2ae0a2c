// The family call on the families of a text, and the samples' sheet: what the programs family-table, handover and sample-sheet share.
#![tactic(auto)]

pub mod calls;
pub mod columns;
pub mod samples;
