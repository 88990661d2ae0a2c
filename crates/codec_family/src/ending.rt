// Steps 8 and 9: how a family ends, decided from bases alone, so that a family not called has touched no column.
ghost use Rattle.std.specs.Prelude.{◌≡◌, ◌≤◌, length};
ghost use Rattle.codec_framing.specs.Framing.{tally_of};
ghost use Rattle.codec_family.specs.Ending.{is_called, frame_of, judgement, by_limits, from_strands, ending_from, tally_between, verdict_of};
ghost use Rattle.codec_family.specs.Fates.{fate_by};
ghost use Rattle.codec_family.specs.Lent.{r1_of, r2_of};

use crate::strands::Strands;
use caller::fates::{NO_STRAND, UNDECIDED, USED};
use caller::reason::RejectionReason;
use caller::refusal::Refusal;
use codec_duplex::limits::{Disagreement, Limits};
use codec_duplex::tally::DuplexBaseTally;
use codec_framing::frame::Frame;
use codec_framing::tallying::tally_strands;
use codec_records::options::Options;
use codec_select::selection::Decision;

// Six ways and no Result: all but a refusal are counted, and each is told. Called has the duplex's length; Disagreeing, a rejection as HighDuplexDisagreement, the limit; Refused why.
#[derive(Clone, Copy)]
pub enum Ending {
    Called(u64),
    Empty,
    NoStrand,
    Rejected(RejectionReason),
    Disagreeing(Disagreement),
    Refused(Refusal),
}

// How the family ends, and the tallies of a duplex that is called.
#[derive(Clone, Copy)]
pub struct Verdict {
    pub ending: Ending,
    pub tally: DuplexBaseTally,
}

pub fn is_called(ending: Ending) -> bool
    ensures { result ≡ is_called ending }
{
    matches!(ending, Ending::Called(_))
}

// The fate of each record that has none yet.
pub fn fate_by(ending: Ending) -> u8
    ensures { result ≡ fate_by ending }
{
    match ending {
        Ending::Called(_) => USED,
        Ending::Empty => UNDECIDED,
        Ending::NoStrand => NO_STRAND,
        Ending::Rejected(reason) => u8::from(reason),
        Ending::Disagreeing(_) => u8::from(RejectionReason::HighDuplexDisagreement),
        Ending::Refused(_) => UNDECIDED,
    }
}

fn frame(length: u64, r1_is_negative: bool, r2_is_negative: bool) -> Frame
    ensures { result ≡ record { length = length; r1_is_negative = r1_is_negative; r2_is_negative = r2_is_negative } }
{
    Frame {
        length: length as usize,
        r1_is_negative,
        r2_is_negative,
    }
}

// Step 7's length, and the orientation of both longest records.
pub fn frame_of(decision: Decision) -> Frame
    ensures { result ≡ frame_of decision }
{
    match decision {
        Decision::Kept {
            length,
            r1_is_negative,
            r2_is_negative,
            ..
        } => frame(length, r1_is_negative, r2_is_negative),
        _ => frame(0, false, false),
    }
}

fn without_tally(ending: Ending) -> Verdict
    ensures { result ≡ record { ending = ending; tally = record { bases = 0; disagreements = 0 } } }
{
    Verdict {
        ending,
        tally: DuplexBaseTally::default(),
    }
}

// A rejected duplex has no tallies to add.
#[tactic(auto, unfolding(crate::specs::Ending::judgement))]
fn judge_strands(options: Options, frame: Frame, r1_bases: &[u8], r2_bases: &[u8]) -> Verdict
    requires r1_fits { length r1_bases.now ≤ frame.length }
    requires r2_fits { length r2_bases.now ≤ frame.length }
    requires short { frame.length ≤ 2048 }
    ensures { result ≡ verdict_of (by_limits (judgement options frame r1_bases.now r2_bases.now) frame.length)
        (tally_of frame r1_bases.now r2_bases.now) }
{
    let limits = Limits {
        max_disagreements: options.max_duplex_disagreements,
        max_rate: options.max_duplex_disagreement_rate,
    };
    let tally = tally_strands(frame, r1_bases, r2_bases);
    match limits.judge(tally) {
        Ok(_) => Verdict {
            ending: Ending::Called(frame.length as u64),
            tally,
        },
        Err(disagreement) => without_tally(Ending::Disagreeing(disagreement)),
    }
}

// Steps 8 and 9 of a family that step 7 leaves.
#[tactic(auto, unfolding(crate::specs::Ending::from_strands))]
fn from_strands(options: Options, frame: Frame, strands: &Strands<'_>) -> Verdict
    requires { frame.length ≤ 2048 }
    ensures { result ≡ verdict_of (from_strands options frame (r1_of strands.now) (r2_of strands.now))
        (tally_between frame (r1_of strands.now) (r2_of strands.now)) }
{
    let (Some(r1), Some(r2)) = (strands.r1, strands.r2) else {
        return without_tally(Ending::NoStrand);
    };
    if (frame.length < r1.bases.len()) | (frame.length < r2.bases.len()) {
        return without_tally(Ending::Rejected(RejectionReason::ClipOverlapFailed));
    }
    judge_strands(options, frame, r1.bases, r2.bases)
}

// How the family goes on from step 7, or how it ended before.
pub fn end_family(decision: Decision, options: Options, strands: &Strands<'_>) -> Verdict
    requires { (frame_of decision).length ≤ 2048 }
    ensures { result ≡ verdict_of (ending_from decision options (r1_of strands.now) (r2_of strands.now))
        (tally_between (frame_of decision) (r1_of strands.now) (r2_of strands.now)) }
{
    match decision {
        Decision::Kept { .. } => from_strands(options, frame_of(decision), strands),
        Decision::Empty => without_tally(Ending::Empty),
        Decision::Rejected(reason) => without_tally(Ending::Rejected(reason)),
        Decision::Refused(refusal) => without_tally(Ending::Refused(refusal)),
    }
}
