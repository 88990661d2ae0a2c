// The most common alignment of a side.
#![tactic(auto)]

pub mod group;
mod order;
pub mod side;
