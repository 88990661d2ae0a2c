// What the host is told.
ghost use Rattle.std.specs.Prelude.{◌≡◌};
ghost use Rattle.codec_duplex.specs.Answer.{reported};

use crate::combining::CombineError;
use crate::limits::Disagreement;
use crate::tally::DuplexBaseTally;

// Numbers, since no enum crosses the C interface: kind 0 has both tallies, 1 the disagreements above the count limit, 2 the rate above the
// rate limit, 3 a refusal's number and what goes with it.
#[repr(C)]
#[derive(Clone, Copy, Debug, Default, PartialEq)]
pub struct CombineAnswer {
    pub kind: u32,
    pub refusal: u32,
    pub with: u32,
    pub bases: u32,
    pub disagreements: u32,
    pub rate: f64,
}

impl From<Result<DuplexBaseTally, CombineError>> for CombineAnswer {
    ghost from_gives = { λ answer told. told ≡ reported answer };

    fn from(answer: Result<DuplexBaseTally, CombineError>) -> Self {
        let blank = CombineAnswer::default();
        match answer {
            Ok(tally) => CombineAnswer {
                bases: tally.bases,
                disagreements: tally.disagreements,
                ..blank
            },
            Err(CombineError::Disagreeing(Disagreement::Count(disagreements))) => CombineAnswer {
                kind: 1,
                disagreements,
                ..blank
            },
            Err(CombineError::Disagreeing(Disagreement::Rate(rate))) => CombineAnswer {
                kind: 2,
                rate,
                ..blank
            },
            Err(CombineError::ColumnsUnequal) => CombineAnswer {
                kind: 3,
                refusal: 12,
                ..blank
            },
        }
    }
}
