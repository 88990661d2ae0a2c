// The selection of a family's records on their columns: with fates and sides for the family call, with marks for selection alone, whose
// answer a host is told as numbers.
#![tactic(auto)]

pub mod alone;
pub mod report;
