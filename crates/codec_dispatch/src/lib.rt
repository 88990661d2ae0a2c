// Turns for eight lanes that feed one caller: a dispatcher counts the families that wait, and says whose is next.
#![tactic(auto)]

pub mod dispatch;
pub mod report;
