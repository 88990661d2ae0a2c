// The combining step through numbers and byte slices, exported.
ghost use Rattle.codec_duplex.specs.Bytes.{CombiningBytes};
ghost use Rattle.codec_duplex.specs.Kept.{kept};

use codec_duplex::answer::CombineAnswer;
use codec_duplex::combining::build_duplex_consensus_from_padded;
use codec_duplex::limits::Limits;
use codec_duplex::strand::{Strand, StrandMut};

// Depths and errors are byte pairs, low byte first; every base byte is accepted. Slices one by one: no struct of slices crosses the C interface.
#[unsafe(no_mangle)]
pub extern "C" fn codec_ffi_combine(
    a_bases: &[u8],
    a_quals: &[u8],
    a_depths: &[u8],
    a_errors: &[u8],
    b_bases: &[u8],
    b_quals: &[u8],
    b_depths: &[u8],
    b_errors: &[u8],
    max_disagreements: u64,
    max_rate: f64,
    bases: &mut [u8],
    quals: &mut [u8],
    depths: &mut [u8],
    errors: &mut [u8],
) -> CombineAnswer
    ensures { CombiningBytes
        (kept a_bases.now a_quals.now a_depths.now a_errors.now)
        (kept b_bases.now b_quals.now b_depths.now b_errors.now)
        max_disagreements max_rate result
        (kept bases.old quals.old depths.old errors.old)
        (kept bases.new quals.new depths.new errors.new) }
{
    let a = Strand {
        bases: a_bases,
        quals: a_quals,
        depths: a_depths,
        errors: a_errors,
    };
    let b = Strand {
        bases: b_bases,
        quals: b_quals,
        depths: b_depths,
        errors: b_errors,
    };
    let limits = Limits {
        max_disagreements,
        max_rate,
    };
    let mut out = StrandMut {
        bases,
        quals,
        depths,
        errors,
    };
    build_duplex_consensus_from_padded(&a, &b, limits, &mut out).into()
}
