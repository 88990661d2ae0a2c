// Window, phase and length of the longest records of two sides.
#![tactic(auto)]

pub mod window;
