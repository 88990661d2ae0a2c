// The bases and qualities of a duplex, which need no depths and no errors.
ghost use Rattle.std.specs.Prelude.{[], ◌≡◌, ◌<◌, ◌≤◌, length};
ghost use Rattle.codec_duplex.specs.Bases.{bases_alone, FilledBases};
ghost use Rattle.codec_duplex.specs.Columns.{position_at};
ghost use Rattle.codec_duplex.specs.Duplex.{duplex};

use crate::position::{Position, combine};

fn base_at(bases: &[u8], quals: &[u8], i: usize) -> Position
    requires { (i < length bases.now) × (i < length quals.now) }
    ensures { result ≡ position_at (bases_alone bases.now quals.now) i }
{
    Position {
        base: bases[i],
        quality: quals[i],
        ..Position::default()
    }
}

// Apart from the depths and errors, so that the compiler takes sixteen positions at once.
pub fn combine_bases(
    a_bases: &[u8],
    a_quals: &[u8],
    b_bases: &[u8],
    b_quals: &[u8],
    bases: &mut [u8],
    quals: &mut [u8],
)
    requires { (length a_quals.now ≡ length a_bases.now) × (length b_bases.now ≡ length a_bases.now) × (length b_quals.now ≡ length a_bases.now) × (length a_bases.now ≤ length bases.old) × (length a_bases.now ≤ length quals.old) }
    ensures { FilledBases
        (bases_alone a_bases.now a_quals.now)
        (bases_alone b_bases.now b_quals.now)
        (duplex bases.old quals.old [] [])
        (duplex bases.new quals.new [] []) }
{
    for i in 0..a_bases.len() {
        let a = base_at(a_bases, a_quals, i);
        let b = base_at(b_bases, b_quals, i);
        let Position { base, quality, .. } = combine(a, b);
        bases[i] = base;
        quals[i] = quality;
    }
}
