// The lines in front of a family: they set ledgers and name its sample.
#![tactic(auto)]

pub mod ledgers;
pub mod settings;
