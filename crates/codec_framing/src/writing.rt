// The duplex and both padded strands, written into lent columns.
ghost use Rattle.std.specs.Prelude.{◌≡◌};
ghost use Rattle.codec_duplex.specs.Columns.{Fitting};
ghost use Rattle.codec_duplex.specs.Duplex.{written_duplex};
ghost use Rattle.codec_duplex.specs.Lent.{strand_of, strand_in, duplex_in, SameLoans};
ghost use Rattle.codec_framing.specs.Framing.{masked_duplex, Framable, Framed};

use crate::frame::Frame;
use codec_duplex::columns::combine_columns;
use codec_duplex::strand::{Strand, StrandMut};
use codec_strands::mask::{Masks, mask_consensus_quals_query_based};
use codec_strands::strand::{pad_consensus, reverse_complement_if};

// The duplex of two padded strands, masked.
fn combine_masked(masks: Masks, a: &Strand<'_>, b: &Strand<'_>, out: &mut StrandMut<'_>)
    requires { Fitting (strand_of a.now) (strand_of b.now) (duplex_in out.old) }
    ensures masked { duplex_in out.new ≡ written_duplex (masked_duplex masks (strand_of a.now) (strand_of b.now)) (duplex_in out.old) }
    ensures same { SameLoans out.old out.new }
{
    combine_columns(a, b, out);
    mask_consensus_quals_query_based(out.quals, a.bases, b.bases, masks);
}

// R1's strand into s1, R2's into s2, and their duplex into d. Three and no struct of them: of a struct in a struct the proof of a caller does not
// learn what its own slices hold.
pub fn write_duplex(
    frame: Frame,
    masks: Masks,
    r1: &Strand<'_>,
    r2: &Strand<'_>,
    d: &mut StrandMut<'_>,
    s1: &mut StrandMut<'_>,
    s2: &mut StrandMut<'_>,
)
    requires { Framable frame (strand_of r1.now) (strand_of r2.now) (duplex_in d.old) (strand_in s1.old) (strand_in s2.old) }
    ensures framed { Framed frame masks (strand_of r1.now) (strand_of r2.now)
        (duplex_in d.old) (duplex_in d.new) (strand_in s1.old) (strand_in s1.new) (strand_in s2.old) (strand_in s2.new) }
    ensures same_d { SameLoans d.old d.new }
    ensures same_s1 { SameLoans s1.old s1.new }
    ensures same_s2 { SameLoans s2.old s2.new }
{
    let n = frame.length;
    let reversed = frame.r1_is_negative;
    pad_consensus(r1, frame.r1(), s1);
    pad_consensus(r2, frame.r2(), s2);
    combine_masked(masks, &s1.as_strand().first(n), &s2.as_strand().first(n), d);
    reverse_complement_if(reversed, d, n);
    reverse_complement_if(reversed, s1, n);
    reverse_complement_if(reversed, s2, n);
}
