// Combining alone: whole columns, with the limits.
ghost use Rattle.std.specs.Prelude.{◌≡◌};
ghost use Rattle.codec_duplex.specs.Combining.{Combining};
ghost use Rattle.codec_duplex.specs.Lent.{kept_of, kept_in, SameLoans};
ghost use Rattle.codec_duplex.specs.declared.combining.CombineError.TheVariants.{Disagreeing};

use crate::columns::{columns_fit, combine_columns};
use crate::counts::CountUnit;
use crate::limits::{Disagreement, Limits};
use crate::strand::{Strand, StrandMut};
use crate::tally::{DuplexBaseTally, tally};

// Why there is no duplex.
#[derive(Clone, Copy, Debug, PartialEq)]
pub enum CombineError {
    Disagreeing(Disagreement),
    ColumnsUnequal,
}

impl From<Disagreement> for CombineError {
    ghost from_gives = { λ disagreement error. error ≡ Disagreeing disagreement };

    fn from(disagreement: Disagreement) -> Self {
        CombineError::Disagreeing(disagreement)
    }
}

// The tallies and limits come first, so that a rejected pair touches no column.
#[tactic(auto, unfolding(crate::specs::Combining::outcome, crate::specs::Kept::columns_fit))]
pub fn build_duplex_consensus_from_padded<U: CountUnit>(
    a: &Strand<'_, U>,
    b: &Strand<'_, U>,
    limits: Limits,
    out: &mut StrandMut<'_, U>,
) -> Result<DuplexBaseTally, CombineError>
    ensures combining { Combining U.coding (kept_of a.now) (kept_of b.now) limits.max_disagreements limits.max_rate result (kept_in out.old) (kept_in out.new) }
    ensures same { SameLoans out.old out.new }
{
    if !columns_fit(a, b, &out.as_strand()) {
        return Err(CombineError::ColumnsUnequal);
    }
    let tally = limits.judge(tally(a.bases, b.bases))?;
    combine_columns(a, b, out);
    Ok(tally)
}
