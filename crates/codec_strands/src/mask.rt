// The masks on a duplex's qualities.
ghost use Rattle.std.specs.Prelude.{◌≡◌, ◌≤◌, ◌<◌, length, take};
ghost use Rattle.lists.specs.Written.{written};
ghost use Rattle.codec_strands.specs.Masks.{outermost, outer_mask, single_strand_mask, masked};

use codec_duplex::position::has_data;

#[derive(Clone, Copy)]
pub struct Masks {
    pub outer_length: u64,
    pub outer_quality: Option<u8>,
    pub single_strand_quality: Option<u8>,
}

// Both ends are counted from, so that no length is taken from another.
fn is_outermost(outer_length: u64, n: usize, i: usize) -> bool
    requires { i < n }
    ensures { result ≡ outermost outer_length n i }
{
    let from_end = n - 1 - i;
    ((i as u64) < outer_length) | ((from_end as u64) < outer_length)
}

fn outer_mask(masks: Masks, n: usize, i: usize, quality: u8) -> u8
    requires { i < n }
    ensures { result ≡ outer_mask masks n i quality }
{
    if is_outermost(masks.outer_length, n, i) {
        masks.outer_quality.unwrap_or(quality)
    } else {
        quality
    }
}

fn single_strand_mask(masks: Masks, a: u8, b: u8, quality: u8) -> u8
    ensures { result ≡ single_strand_mask masks a b quality }
{
    if has_data(a) & has_data(b) {
        quality
    } else {
        masks.single_strand_quality.unwrap_or(quality)
    }
}

// Masks the qualities of the duplex of the padded strands' bases a and b, as many as a has.
pub fn mask_consensus_quals_query_based(quals: &mut [u8], a: &[u8], b: &[u8], masks: Masks)
    requires second { length a.now ≤ length b.now }
    requires room { length a.now ≤ length quals.old }
    ensures { quals.new ≡ written (masked masks a.now b.now (take (length a.now) quals.old)) quals.old }
{
    let n = a.len();
    for i in 0..n {
        let outer = outer_mask(masks, n, i, quals[i]);
        quals[i] = single_strand_mask(masks, a[i], b[i], outer);
    }
}
