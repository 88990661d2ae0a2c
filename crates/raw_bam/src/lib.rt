// BAM records as the caller reads them: flags and CIGARs.
#![tactic(auto)]

pub mod cigar;
pub mod flags;
pub mod operation;
pub mod prefix;
pub mod read_pos;
pub mod simplified;
