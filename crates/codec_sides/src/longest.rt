// Step 6: the longest record of a side.
ghost use Rattle.std.specs.Prelude.{◌≡◌, ◌<◌, length};
ghost use Rattle.codec_sides.specs.Side.{HasOperations, HaveOperations, reference_bases_of, longest_of};

pub use codec_records::family::operations_of;
use raw_bam::cigar::reference_length_from_cigar;

#[tactic(auto, unfolding(crate::specs::Side::reference_bases_of))]
fn reference_bases_of(ops: &[u32], starts: &[u32], counts: &[u32], record: usize) -> u64
    requires { HasOperations ops.now starts.now counts.now «record» }
    ensures { result ≡ reference_bases_of ops.now starts.now counts.now «record» }
{
    reference_length_from_cigar(operations_of(ops, starts, counts, record))
}

// The place of the longest in the side: of records that are equally long, the earliest (max_by_key takes the last).
pub fn longest_of(ops: &[u32], starts: &[u32], counts: &[u32], side: &[usize]) -> usize
    requires have_operations { HaveOperations ops.now starts.now counts.now side.now }
    requires side_nonzero { 0 < length side.now }
    ensures value { result ≡ longest_of ops.now starts.now counts.now side.now }
    ensures upper_bound { result < length side.now }
{
    let mut longest = 0;
    let mut most = reference_bases_of(ops, starts, counts, side[0]);
    for k in 1..side.len() {
        let bases = reference_bases_of(ops, starts, counts, side[k]);
        if most < bases {
            longest = k;
            most = bases;
        }
    }
    longest
}
