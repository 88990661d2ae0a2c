// How many positions both strands call, and at how many of those the bases differ.
ghost use Rattle.std.specs.Prelude.{◌≡◌, ◌≤◌, length};
ghost use Rattle.codec_duplex.specs.Tally.{tallied};

use crate::position::has_data;

#[derive(Clone, Copy, Debug, Default, PartialEq, Eq)]
pub struct DuplexBaseTally {
    pub bases: u32,
    pub disagreements: u32,
}

// Counted in 16 bits, which hold 2,048, so that the compiler counts twice as many at once; in one pass, and not two chains.
#[tactic(auto, using(lists::proofs::Count::count_more), unfolding(lists::specs::Count::count_below, crate::specs::Tally::both_call, crate::specs::Tally::disagree, crate::specs::Tally::tallied))]
pub fn tally(a: &[u8], b: &[u8]) -> DuplexBaseTally
    requires { (length b.now ≡ length a.now) × (length a.now ≤ 2048) }
    ensures { result ≡ tallied a.now b.now }
{
    let mut bases: u16 = 0;
    let mut disagreements: u16 = 0;
    for i in 0..a.len() {
        let both = has_data(a[i]) & has_data(b[i]);
        bases += u16::from(both);
        disagreements += u16::from(both & (a[i] != b[i]));
    }
    DuplexBaseTally {
        bases: u32::from(bases),
        disagreements: u32::from(disagreements),
    }
}
