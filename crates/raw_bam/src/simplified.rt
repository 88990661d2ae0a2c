// The simplified CIGAR of a record: S, H, = and X as M, neighbours of one kind joined.
ghost use Rattle.std.specs.Prelude.{cond, ◌≡◌, ◌-◌, ◌≤◌, ◌<◌, ◌^◌, length};
ghost use Rattle.lists.specs.Written.{written};
ghost use Rattle.raw_bam.specs.Simplified.{kind_of, simple_entry, simplified};

// The kind that a code becomes.
#[tactic(auto, unfolding(crate::specs::Simplified::kind_of))]
fn kind_of(code: u32) -> u32
    ensures { result ≡ kind_of code }
{
    match code {
        4 | 5 | 7 | 8 => 0,
        _ => code,
    }
}

// Hard clips and paddings are bounded by no refusal, so an entry that is joined of many can pass 32 bits.
#[tactic(auto, using(crate::proofs::Joining::kind_le), unfolding(crate::specs::Simplified::simple_entry))]
fn simple_entry(word: u32) -> u64
    ensures value { result ≡ simple_entry word }
    ensures short { result < 2 ^ 32 }
{
    u64::from(word / 16) * 16 + u64::from(kind_of(word % 16))
}

// The i-th operation from the end that a record is read from: two chains, one reversed, would be two types.
fn place(i: usize, count: usize, reverse: bool) -> usize
    requires { i < count }
    ensures value { result ≡ cond reverse (count - 1 - i) i }
    ensures within { result < count }
{
    if reverse { count - 1 - i } else { i }
}

// Writes the simplified list of a record, and answers the number of its entries. Into a lent slice, since there is no heap.
pub fn simplify_cigar_from_raw(ops: &[u32], reverse: bool, entries: &mut [u64]) -> usize
    requires few { length ops.now ≤ 8192 }
    requires room { length ops.now ≤ length entries.old }
    ensures count { result ≡ length (simplified reverse ops.now) }
    ensures stored { entries.new ≡ written (simplified reverse ops.now) entries.old }
{
    let mut n = 0;
    for i in 0..ops.len() {
        let entry = simple_entry(ops[place(i, ops.len(), reverse)]);
        if 0 < n && entries[n - 1] % 16 == entry % 16 {
            entries[n - 1] += entry / 16 * 16;
        } else {
            entries[n] = entry;
            n += 1;
        }
    }
    n
}
