// Why a record is rejected, and the number that the handover list gives it.
ghost use Rattle.std.specs.Prelude.{◌≡◌, Some};
ghost use Rattle.caller.specs.Reasons.{name_of, number_of, ReadBack};

use std::fmt;

#[derive(Clone, Copy, Debug, PartialEq, Eq)]
pub enum RejectionReason {
    FragmentRead = 1,
    NotPrimaryFrPair = 2,
    InsufficientReads = 3,
    MinorityAlignment = 4,
    Downsampled = 5,
    InsufficientOverlap = 6,
    IndelErrorBetweenStrands = 7,
    Dovetail = 8,
    ClipOverlapFailed = 9,
    HighDuplexDisagreement = 10,
}

impl RejectionReason {
    pub fn name(self) -> &'static str
        ensures { result.now ≡ name_of self }
    {
        match self {
            RejectionReason::FragmentRead => "FragmentRead",
            RejectionReason::NotPrimaryFrPair => "NotPrimaryFrPair",
            RejectionReason::InsufficientReads => "InsufficientReads",
            RejectionReason::MinorityAlignment => "MinorityAlignment",
            RejectionReason::Downsampled => "Downsampled",
            RejectionReason::InsufficientOverlap => "InsufficientOverlap",
            RejectionReason::IndelErrorBetweenStrands => "IndelErrorBetweenStrands",
            RejectionReason::Dovetail => "Dovetail",
            RejectionReason::ClipOverlapFailed => "ClipOverlapFailed",
            RejectionReason::HighDuplexDisagreement => "HighDuplexDisagreement",
        }
    }
}

impl fmt::Display for RejectionReason {
    ghost output = { λ reason. Some (name_of reason) };

    fn fmt<W: fmt::Write>(&self, f: &mut fmt::Formatter<W>) -> fmt::Result {
        f.pad(self.name())
    }
}

impl From<RejectionReason> for u8 {
    ghost from_gives = { λ reason n. n ≡ number_of reason };

    fn from(reason: RejectionReason) -> u8 {
        reason as u8
    }
}

// A number that no reason has.
#[derive(Clone, Copy, Debug, PartialEq, Eq)]
pub struct NoReason;

impl TryFrom<u8> for RejectionReason {
    type Error = NoReason;

    ghost try_from_gives = { ReadBack };

    fn try_from(n: u8) -> Result<Self, NoReason> {
        match n {
            1 => Ok(RejectionReason::FragmentRead),
            2 => Ok(RejectionReason::NotPrimaryFrPair),
            3 => Ok(RejectionReason::InsufficientReads),
            4 => Ok(RejectionReason::MinorityAlignment),
            5 => Ok(RejectionReason::Downsampled),
            6 => Ok(RejectionReason::InsufficientOverlap),
            7 => Ok(RejectionReason::IndelErrorBetweenStrands),
            8 => Ok(RejectionReason::Dovetail),
            9 => Ok(RejectionReason::ClipOverlapFailed),
            10 => Ok(RejectionReason::HighDuplexDisagreement),
            _ => Err(NoReason),
        }
    }
}
