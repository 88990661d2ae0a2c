// A family call by its parts: what it is given and lent, what it refuses, how it ends, what it counts and answers.
#![tactic(auto)]

pub mod answer;
pub mod counted;
pub mod ending;
pub mod lent;
pub mod refusal;
pub mod room;
pub mod strands;
