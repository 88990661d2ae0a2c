// Document 02, Req 01: the sheet of the samples, as text in a lent buffer.
#![tactic(auto)]

pub mod line;
pub mod refusal;
pub mod report;
pub mod sheet;
