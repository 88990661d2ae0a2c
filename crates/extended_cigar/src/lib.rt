// Plain and extended CIGARs: a list with M becomes one with = and X, given the bases, and the other way round.
#![tactic(auto)]

pub mod back;
pub mod convert;
pub mod refusal;
pub mod there;
