// Which records of a family pair up by name, and what is refused of those that do.
#![tactic(auto)]

pub mod pairing;
pub mod refusal;
