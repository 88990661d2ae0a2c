// The combining step: one position, the tallies and limits of a pair of strands, whole columns.
#![tactic(auto)]

pub mod answer;
pub mod bases;
pub mod columns;
pub mod combining;
pub mod counts;
pub mod limits;
pub mod position;
pub mod strand;
pub mod tally;
