// Document 02, Req 01: the family call that names its sample.
#![tactic(auto)]

pub mod books;
pub mod family;
