// Text tables over byte slices: lines, fields and decimals, read and written.
#![tactic(auto)]

pub mod decimal;
pub mod duplex;
pub mod fields;
pub mod input_table;
pub mod output_reading;
pub mod output_table;
pub mod page;
pub mod parts;
pub mod position;
pub mod reading;
