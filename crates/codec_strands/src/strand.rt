// Strands turned round, and padded to the duplex's length.
ghost use Rattle.std.specs.Prelude.{◌≡◌};
ghost use Rattle.codec_duplex.specs.Lent.{strand_of, strand_in, first_places, SameLoans};
ghost use Rattle.codec_strands.specs.Strands.{oriented, laid, written_strand, Within, StrandRoom};

use crate::bases::{turn_bases, write_bases};
use crate::column::{turn, write_column};
use crate::layout::Layout;
use codec_duplex::strand::{Strand, StrandMut};

// Writes a strand as it lies, padded.
pub fn pad_consensus(strand: &Strand<'_>, layout: Layout, out: &mut StrandMut<'_>)
    requires fits { Within layout.length (strand_of strand.now) }
    requires room { StrandRoom layout.length (strand_in out.old) }
    ensures padded { strand_in out.new ≡ written_strand (laid layout (strand_of strand.now)) (strand_in out.old) }
    ensures same { SameLoans out.old out.new }
{
    write_bases(strand.bases, layout, out.bases);
    write_column(strand.quals, 0, layout, out.quals);
    write_column(strand.depths, 0, layout, out.depths);
    write_column(strand.errors, 0, layout, out.errors);
}

// Reverse complements a strand of n places where it stands, if it is asked to.
pub fn reverse_complement_if(reversed: bool, strand: &mut StrandMut<'_>, n: usize)
    requires { StrandRoom n (strand_in strand.old) }
    ensures oriented { strand_in strand.new
        ≡ written_strand (oriented reversed (first_places n (strand_in strand.old))) (strand_in strand.old) }
    ensures same { SameLoans strand.old strand.new }
{
    turn_bases(strand.bases, n, reversed);
    turn(strand.quals, n, reversed);
    turn(strand.depths, n, reversed);
    turn(strand.errors, n, reversed);
}
