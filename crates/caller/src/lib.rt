// What the callers share: fgbio's clamps, the reasons for a rejection, the fates and the refusals, the read cap.
#![tactic(auto)]

pub mod fates;
pub mod phred;
pub mod ranking;
pub mod reason;
pub mod refusal;
pub mod short;
