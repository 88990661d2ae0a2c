// The check of a partner's table: their output table beside our input table.
#![tactic(auto)]

pub mod compare;
pub mod fault;
pub mod report;
