// The records of a side, as columns, and their simplified lists.
ghost use Rattle.std.specs.Prelude.{◌≡◌, ◌<◌, length};
ghost use Rattle.raw_bam.specs.Prefix.{is_prefix, smaller};
ghost use Rattle.vanilla_caller.specs.Side.{HasRecords};

use raw_bam::prefix::{is_cigar_prefix, is_cigar_smaller};
use raw_bam::simplified::simplify_cigar_from_raw;

// Each record has a part of the operation words, a clipped length and its own orientation.
// Columns and no slice of records: each is gathered from a column of the family.
#[derive(Clone, Copy)]
pub struct Side<'a> {
    pub ops: &'a [u32],
    pub clipped: &'a [u32],
    pub starts: &'a [u32],
    pub counts: &'a [u32],
    pub reverse: &'a [bool],
    ghost has_records: { HasRecords ops.now starts.now counts.now reverse.now (length clipped.now) },
}

impl Side<'_> {
    ghost use Rattle.vanilla_caller.specs.Lists.{lists_of};

    // The simplified list of record i, which has at most 64 entries, in the first places of what is lent: by value it is copied twice.
    pub fn list<'e>(&self, i: usize, entries: &'e mut [u64; 64]) -> &'e [u64]
        requires { i < length self.now.clipped.now }
        ensures { result.now ≡ lists_of self.now i }
    {
        let start = self.starts[i] as usize;
        let end = start + self.counts[i] as usize;
        let count = simplify_cigar_from_raw(&self.ops[start..end], self.reverse[i], entries);
        &entries[..count]
    }

    // The list of record i is a prefix of another.
    pub fn is_prefix(&self, i: usize, first: &[u64]) -> bool
        requires { i < length self.now.clipped.now }
        ensures { result ≡ is_prefix (lists_of self.now i) first.now }
    {
        let mut own = [0; 64];
        is_cigar_prefix(self.list(i, &mut own), first)
    }

    // The list of record i is smaller than that of record j.
    pub fn is_smaller(&self, i: usize, j: usize) -> bool
        requires in_side { i < length self.now.clipped.now }
        requires other_in_side { j < length self.now.clipped.now }
        ensures { result ≡ smaller (lists_of self.now i) (lists_of self.now j) }
    {
        let mut own = [0; 64];
        let mut other = [0; 64];
        is_cigar_smaller(self.list(i, &mut own), self.list(j, &mut other))
    }
}
