// Selection alone: steps 1 to 7 of a family.
use caller::reason::RejectionReason;
use caller::refusal::Refusal;

// How selection ends: in four ways that a host is told alike, and no Result, of which a rejected family would be neither side.
#[derive(Clone, Copy, Debug, PartialEq, Eq)]
pub enum Decision {
    Kept {
        start: u64,
        end: u64,
        length: u64,
        r1_is_negative: bool,
        r2_is_negative: bool,
    },
    Empty,
    Rejected(RejectionReason),
    Refused(Refusal),
}

// The decision, and the records of each side that stay as mark words, which are all 0 unless the decision is Kept.
#[derive(Clone, Copy, Debug, PartialEq, Eq)]
pub struct Selection {
    pub decision: Decision,
    pub r1: [u64; 8],
    pub r2: [u64; 8],
}
