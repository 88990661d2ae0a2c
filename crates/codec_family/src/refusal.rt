// Refusals 7 to 9, and the order of all eleven.
ghost use Rattle.std.specs.Prelude.{◌≡◌};
ghost use Rattle.std.specs.Result.{result_and};
ghost use Rattle.codec_duplex.specs.Lent.{strand_of};
ghost use Rattle.codec_stats.specs.Ledger.{of_counts};
ghost use Rattle.codec_family.specs.Lent.{r1_of, r2_of};
ghost use Rattle.codec_family.specs.Refusals.{refusal_in, bad_columns, is_base, bad_bases, of_strands, of_room};

use crate::room::Room;
use crate::strands::Strands;
use caller::refusal::{ReadType, Refusal};
use codec_duplex::strand::Strand;
use codec_select::selection::Decision;
use codec_stats::ledger::Ledger;
use codec_stats::refusals::check;

// Selection answers refusals 1 to 6.
pub fn refusal_in(decision: Decision) -> Result<(), Refusal>
    ensures { result ≡ refusal_in decision }
{
    match decision {
        Decision::Refused(refusal) => Err(refusal),
        _ => Ok(()),
    }
}

#[tactic(auto, unfolding(crate::specs::Refusals::bad_columns))]
fn has_bad_columns(strand: &Strand<'_>) -> bool
    ensures { result ≡ bad_columns (strand_of strand.now) }
{
    let n = strand.bases.len();
    let quals = n == strand.quals.len();
    let counts = (n == strand.depths.len()) & (n == strand.errors.len());
    !(quals & counts) | (1024 < n)
}

// By `|` and no `match`, of which the compiler makes no vector code.
fn is_base(base: u8) -> bool
    ensures { result ≡ is_base base }
{
    (base == b'A')
        | (base == b'C')
        | (base == b'G')
        | (base == b'T')
        | (base == b'N')
        | (base == b'n')
}

// All bases are asked, with no branch: a strand is seldom bad.
#[tactic(auto, unfolding(crate::specs::Refusals::bad_bases))]
fn has_bad_base(strand: &Strand<'_>) -> bool
    ensures { result ≡ bad_bases (strand_of strand.now) }
{
    let mut bad = false;
    for &base in strand.bases {
        bad |= !is_base(base);
    }
    bad
}

// The columns of an absent strand are not read.
#[tactic(auto, unfolding(crate::specs::Refusals::of_strands))]
pub fn refuse_strands(strands: &Strands<'_>) -> Result<(), Refusal>
    ensures { result ≡ of_strands (r1_of strands.now) (r2_of strands.now) }
{
    if strands.r1.is_some_and(|r1| has_bad_columns(&r1)) {
        return Err(Refusal::BadColumns(ReadType::R1));
    }
    if strands.r2.is_some_and(|r2| has_bad_columns(&r2)) {
        return Err(Refusal::BadColumns(ReadType::R2));
    }
    if strands.r1.is_some_and(|r1| has_bad_base(&r1)) {
        return Err(Refusal::BadBase(ReadType::R1));
    }
    if strands.r2.is_some_and(|r2| has_bad_base(&r2)) {
        return Err(Refusal::BadBase(ReadType::R2));
    }
    Ok(())
}

// Of the records, the strands, what is lent, and then the ledger.
#[tactic(auto, unfolding(codec_stats::specs::Ledger::of_counts))]
pub fn refuse(
    decision: Decision,
    strands: &Strands<'_>,
    room: Room,
    ledger: Ledger,
) -> Result<(), Refusal>
    ensures { result ≡ result_and
        (result_and (refusal_in decision)
        (result_and (of_strands (r1_of strands.now) (r2_of strands.now)) (of_room room)))
        (of_counts ledger) }
{
    refusal_in(decision)?;
    refuse_strands(strands)?;
    if room.is_too_narrow() {
        return Err(Refusal::TooNarrow);
    }
    Ok(check(ledger)?)
}
