// Steps 6 and 7 of the two sides: the longest record of each, and what they share.
ghost use Rattle.std.specs.Prelude.{◌≡◌};
ghost use Rattle.codec_select.specs.Alignments.{alignments, Formed};
ghost use Rattle.codec_select.specs.Steps.{IsLongest, decision_of, overlapping};

use crate::selection::Decision;
use caller::reason::RejectionReason;
use codec_records::options::Options;
use codec_sides::longest::{longest_of, operations_of};
use codec_window::window::{Aligned, Overlap, Pair};
use raw_bam::flags::is_reverse;

#[derive(Clone, Copy)]
pub struct Longest<'a> {
    pub aligned: Aligned<'a>,
    pub is_negative: bool,
}

// The longest of a side: of R1's, its orientation decides which side is negative.
#[tactic(auto, unfolding(crate::specs::Steps::longest_record, crate::specs::Steps::is_negative))]
fn longest_record<'a>(
    flags: &[u16],
    clipped: &[u32],
    positions: &[u32],
    starts: &[u32],
    counts: &[u32],
    ops: &'a [u32],
    side: &[usize],
) -> Longest<'a>
    requires { Formed (alignments flags.now clipped.now positions.now starts.now counts.now ops.now) side.now }
    ensures { IsLongest (alignments flags.now clipped.now positions.now starts.now counts.now ops.now) side.now result }
{
    let number = side[longest_of(ops, starts, counts, side)];
    Longest {
        aligned: Aligned {
            ops: operations_of(ops, starts, counts, number),
            position: u64::from(positions[number]),
            clipped_length: u64::from(clipped[number]),
        },
        is_negative: is_reverse(flags[number]),
    }
}

fn decide(
    overlap: Result<Overlap, RejectionReason>,
    r1_is_negative: bool,
    r2_is_negative: bool,
) -> Decision
    ensures { result ≡ decision_of overlap r1_is_negative r2_is_negative }
{
    match overlap {
        Ok(Overlap { window, length }) => Decision::Kept {
            start: u64::from(window.start),
            end: u64::from(window.end),
            length,
            r1_is_negative,
            r2_is_negative,
        },
        Err(reason) => Decision::Rejected(reason),
    }
}

pub fn overlap_of_sides(
    flags: &[u16],
    clipped: &[u32],
    positions: &[u32],
    starts: &[u32],
    counts: &[u32],
    ops: &[u32],
    options: Options,
    r1: &[usize],
    r2: &[usize],
) -> Decision
    requires formed { Formed (alignments flags.now clipped.now positions.now starts.now counts.now ops.now) r1.now }
    requires formed_2 { Formed (alignments flags.now clipped.now positions.now starts.now counts.now ops.now) r2.now }
    ensures { result ≡ overlapping options (alignments flags.now clipped.now positions.now starts.now counts.now ops.now) r1.now r2.now }
{
    let first = longest_record(flags, clipped, positions, starts, counts, ops, r1);
    let second = longest_record(flags, clipped, positions, starts, counts, ops, r2);
    let pair = Pair {
        r1: first.aligned,
        r2: second.aligned,
        r1_is_negative: first.is_negative,
    };
    let overlap = pair.overlap(options.legacy_overlap_window, options.min_duplex_length);
    decide(overlap, first.is_negative, second.is_negative)
}
