// What a record's CIGAR consumes of the read and of the reference.
ghost use Rattle.std.specs.Prelude.{◌≡◌, ◌≤◌, ◌<◌, ◌^◌, length};
ghost use Rattle.raw_bam.specs.Cigar.{op_length, is_operation, read_bases, reference_bases, read_length, reference_length};

use crate::operation::consumes;

// The bases that one operation, or a list of them, consumes.
#[derive(Clone, Copy)]
pub struct Bases {
    pub read: u64,
    pub reference: u64,
}

pub fn op_length(word: u32) -> u64
    ensures { result ≡ op_length word }
{
    u64::from(word / 16)
}

// Its code is one of the nine, and its length is not 0.
pub fn is_operation(word: u32) -> bool
    ensures { result ≡ is_operation word }
{
    word % 16 <= 8 && 0 < word / 16
}

// Fewer than 2^28 of each, since a length has 28 bits.
#[tactic(auto, unfolding(crate::specs::Cigar::read_bases, crate::specs::Cigar::reference_bases))]
pub fn bases_of(word: u32) -> Bases
    ensures read { result.read ≡ read_bases word }
    ensures reference { result.reference ≡ reference_bases word }
    ensures read_short { result.read < 2 ^ 28 }
    ensures reference_short { result.reference < 2 ^ 28 }
{
    let length = op_length(word);
    let what = consumes(word);
    Bases {
        read: if what.read { length } else { 0 },
        reference: if what.reference { length } else { 0 },
    }
}

// The sum over 8,192 words fits. The bound stays a clause: a struct of few operations would be made anew from a slice at each call.
// Two chains: the field as a closure is no plainer.
#[tactic(auto, using(lists::proofs::Total::total_is_sum_by))]
pub fn read_length_from_cigar(ops: &[u32]) -> u64
    requires { length ops.now ≤ 8192 }
    ensures { result ≡ read_length ops.now }
{
    ops.iter().map(|word| bases_of(*word).read).sum()
}

#[tactic(auto, using(lists::proofs::Total::total_is_sum_by))]
pub fn reference_length_from_cigar(ops: &[u32]) -> u64
    requires { length ops.now ≤ 8192 }
    ensures { result ≡ reference_length ops.now }
{
    ops.iter().map(|word| bases_of(*word).reference).sum()
}

// Both in one pass, since a list that is converted is asked for both.
pub fn bases_of_cigar(ops: &[u32]) -> Bases
    requires { length ops.now ≤ 8192 }
    ensures read { result.read ≡ read_length ops.now }
    ensures reference { result.reference ≡ reference_length ops.now }
{
    let mut read = 0;
    let mut reference = 0;
    for &word in ops {
        let bases = bases_of(word);
        read += bases.read;
        reference += bases.reference;
    }
    Bases { read, reference }
}
