// One line of a text of families: its tag, its fields and values, its numbers or bases; and where reading goes on from line to line.
#![tactic(auto)]

pub mod bases;
pub mod line;
pub mod lines;
pub mod numbers;
pub mod value;
