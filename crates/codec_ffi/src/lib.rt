// What a Rust or C host calls: the combining step through numbers and byte slices; on a slice of records, selection alone and the family call; the ledger's rates; the turns of eight lanes; both conversions of CIGARs; the check of a partner's table; the sheet of the samples.
#![tactic(auto)]

pub mod choose;
pub mod cigar;
pub mod combine;
pub mod dispatch;
pub mod family;
pub mod partner;
pub mod rates;
pub mod select;
pub mod sheet;
