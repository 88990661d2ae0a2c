// Step 9 of a family: the two strands in the duplex's frame, tallied, combined, masked and turned back.
#![tactic(auto)]

pub mod frame;
pub mod tallying;
pub mod writing;
