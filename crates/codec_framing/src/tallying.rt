// The two tallies of a duplex, before any of its columns is written.
ghost use Rattle.std.specs.Prelude.{◌≡◌, ◌≤◌, length};
ghost use Rattle.codec_framing.specs.Framing.{tally_of};

use crate::frame::Frame;
use codec_duplex::tally::{DuplexBaseTally, tally};
use codec_strands::bases::write_bases;

// Bases alone are padded, into scratch, so that a rejected duplex touches no column.
pub fn tally_strands(frame: Frame, r1_bases: &[u8], r2_bases: &[u8]) -> DuplexBaseTally
    requires r1_fits { length r1_bases.now ≤ frame.length }
    requires r2_fits { length r2_bases.now ≤ frame.length }
    requires short { frame.length ≤ 2048 }
    ensures { result ≡ tally_of frame r1_bases.now r2_bases.now }
{
    let n = frame.length;
    let mut first = [0u8; 2048];
    let mut second = [0u8; 2048];
    write_bases(r1_bases, frame.r1(), &mut first);
    write_bases(r2_bases, frame.r2(), &mut second);
    tally(&first[..n], &second[..n])
}
