// A family's operation words and the lines of its strands.
#![tactic(auto)]

pub mod column;
pub mod strands;
