// A family's first line and the lines of its records.
#![tactic(auto)]

pub mod header;
pub mod record;
pub mod records;
