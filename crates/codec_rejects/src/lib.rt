// What a family's column of fates gives: the fates of all its records, its counters, its marks and its handover list.
#![tactic(auto)]

pub mod fates;
pub mod rejects;
