// A strand's bases, which are exchanged where the strand is turned round.
ghost use Rattle.std.specs.Prelude.{map, ◌≡◌, ◌≤◌, length, take};
ghost use Rattle.lists.specs.Written.{written};
ghost use Rattle.codec_strands.specs.Strands.{complement, turned_bases, laid_bases};

use crate::column::{copy, fill};
use crate::layout::Layout;
use caller::phred::NO_CALL_BASE_LOWER;
use codec_duplex::position::pick;

// Chosen with no branch, since bases are hard to foresee.
pub fn complement_base(base: u8) -> u8
    ensures { result ≡ complement base }
{
    let of_g = pick(base == b'G', b'C', base);
    let of_c = pick(base == b'C', b'G', of_g);
    let of_t = pick(base == b'T', b'A', of_c);
    pick(base == b'A', b'T', of_t)
}

fn complement_bases(bases: &mut [u8])
    ensures { bases.new ≡ map complement bases.old }
{
    for base in bases.iter_mut() {
        *base = complement_base(*base);
    }
}

// Copies bases, reverse complemented if it is asked to: each place is written once.
fn copy_bases(bases: &[u8], reversed: bool, places: &mut [u8])
    requires { length places.old ≡ length bases.now }
    ensures { places.new ≡ turned_bases reversed bases.now }
{
    if !reversed {
        copy(bases, places);
        return;
    }
    let n = bases.len();
    for i in 0..n {
        places[i] = complement_base(bases[n - 1 - i]);
    }
}

// Writes bases as their strand lies, with padding in the other places of the duplex.
pub fn write_bases(bases: &[u8], layout: Layout, out: &mut [u8])
    requires fits { length bases.now ≤ layout.length }
    requires room { layout.length ≤ length out.old }
    ensures { out.new ≡ written (laid_bases layout bases.now) out.old }
{
    let out = &mut out[..layout.length];
    fill(out, NO_CALL_BASE_LOWER);
    let start = layout.start(bases.len());
    let places = &mut out[start..start + bases.len()];
    copy_bases(bases, layout.reversed, places);
}

// Turns the first n bases round, if it is asked to.
pub fn turn_bases(bases: &mut [u8], n: usize, reversed: bool)
    requires { n ≤ length bases.old }
    ensures { bases.new ≡ written (turned_bases reversed (take n bases.old)) bases.old }
{
    if reversed {
        let bases = &mut bases[..n];
        complement_bases(bases);
        bases.reverse();
    }
}
