// Steps 1 to 7 of a family, joined: which of its records stay, and the window and the length of its duplex.
#![tactic(auto)]

pub mod overlapping;
pub mod selection;
pub mod steps;
