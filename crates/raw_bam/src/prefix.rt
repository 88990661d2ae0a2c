// How two simplified CIGARs stand to each other.
ghost use Rattle.std.specs.Prelude.{◌≡◌};
ghost use Rattle.raw_bam.specs.Prefix.{fits_last, is_prefix, smaller};

fn fits_last(x: u64, y: u64) -> bool
    ensures { result ≡ fits_last x y }
{
    x % 16 == y % 16 && x / 16 <= y / 16
}

// The entries of a but the last are those of b, and the last has the kind of b's at its place and at most its length.
pub fn is_cigar_prefix(a: &[u64], b: &[u64]) -> bool
    ensures { result ≡ is_prefix a.now b.now }
{
    let Some((last, front)) = a.split_last() else {
        return true;
    };
    let n = front.len();
    n < b.len() && b.starts_with(front) && fits_last(*last, b[n])
}

// The order of two lists at a tie. As words, entries compare by length and then by code.
pub fn is_cigar_smaller(a: &[u64], b: &[u64]) -> bool
    ensures { result ≡ smaller a.now b.now }
{
    a < b
}
