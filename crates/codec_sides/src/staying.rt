// Steps 4 and 5 on one side: which of its records stay, and what becomes of the others.
ghost use Rattle.std.specs.Prelude.{◌≡◌, ◌≤◌, length};
ghost use Rattle.lists.specs.Written.{written};
ghost use Rattle.codec_records.specs.Records.{Below};
ghost use Rattle.codec_sides.specs.Side.{HaveOperations, in_group, under_cap, dropped, given_fate};

use crate::gather::{gather, gather_reverse};
use caller::fates::first_fate;
use caller::ranking::select_lowest_ranking;
pub use codec_records::side::keep_staying;
use vanilla_caller::group::select_most_common_alignment_group;
use vanilla_caller::side::Side;

// Writes for each record of a side of up to 256 whether it is in the most common alignment group.
pub fn filter_to_most_common_alignment_raw(
    ops: &[u32],
    clipped: &[u32],
    starts: &[u32],
    counts: &[u32],
    flags: &[u16],
    side: &[usize],
    stays: &mut [bool],
)
    requires have_operations { HaveOperations ops.now starts.now counts.now side.now }
    requires below { Below side.now (length clipped.now) }
    requires below_2 { Below side.now (length flags.now) }
    requires side_len_bound { (length side.now ≤ 256) × (length side.now ≤ length stays.old) }
    ensures { stays.new ≡ written (in_group ops.now clipped.now starts.now counts.now flags.now side.now) stays.old }
{
    let n = side.len();
    let mut own_clipped = [0; 256];
    gather(side, &mut own_clipped, |r| clipped[r]);
    let mut own_starts = [0; 256];
    gather(side, &mut own_starts, |r| starts[r]);
    let mut own_counts = [0; 256];
    gather(side, &mut own_counts, |r| counts[r]);
    let mut reverse = [false; 256];
    gather_reverse(flags, side, &mut reverse);
    let records = Side {
        ops,
        clipped: &own_clipped[..n],
        starts: &own_starts[..n],
        counts: &own_counts[..n],
        reverse: &reverse[..n],
    };
    select_most_common_alignment_group(&records, stays);
}

// Writes for each record of a side of up to 256 whether it stays under the read cap.
pub fn cap_infos_to_lowest_ranking(
    ranks: &[i32],
    max_reads: u64,
    side: &[usize],
    stays: &mut [bool],
)
    requires below { Below side.now (length ranks.now) }
    requires side_len_bound { (length side.now ≤ 256) × (length side.now ≤ length stays.old) }
    ensures { stays.new ≡ written (under_cap ranks.now max_reads side.now) stays.old }
{
    let mut own_ranks = [0; 256];
    gather(side, &mut own_ranks, |r| ranks[r]);
    select_lowest_ranking(&own_ranks[..side.len()], max_reads, stays);
}

// Gives a fate to each record of a side that does not stay and has none yet.
pub fn give_fate_to_dropped(side: &[usize], stays: &[bool], fate: u8, fates: &mut [u8])
    requires stays_len { length stays.now ≡ length side.now }
    requires below { Below side.now (length fates.old) }
    ensures { fates.new ≡ given_fate fate (dropped side.now stays.now) fates.old }
{
    for (k, &record) in side.iter().enumerate() {
        if !stays[k] {
            fates[record] = first_fate(fate, fates[record]);
        }
    }
}
