// One side of a family: which of its records stay, what becomes of the others, and its longest.
#![tactic(auto)]

pub mod dropping;
pub mod gather;
pub mod longest;
pub mod staying;
