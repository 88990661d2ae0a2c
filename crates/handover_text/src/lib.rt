// What is handed over, as text for people: the families that gave no duplex, and the sheet of the ledger.
#![tactic(auto)]

pub mod handover;
pub mod sheet;
