// Document 01's ledger: its 20 counts, what is added to them, its refusals and its rates.
#![tactic(auto)]

pub mod ledger;
pub mod rates;
pub mod refusals;
pub mod report;
