// Family calls as text, read one at a time.
#![tactic(auto)]

pub mod call;
pub mod family;
pub mod room;
