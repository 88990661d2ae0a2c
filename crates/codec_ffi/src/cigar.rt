// Plain and extended CIGARs, exported.
ghost use Rattle.std.specs.Prelude.{length};
ghost use Rattle.extended_cigar.specs.Converted.{Converted};
ghost use Rattle.extended_cigar.specs.Extended.{extended};
ghost use Rattle.extended_cigar.specs.Plain.{plain};
ghost use Rattle.extended_cigar.specs.Refusals.{refusal_there, refusal_back};

use extended_cigar::convert::{CigarAnswer, extend_cigar, flatten_cigar};

// M becomes = and X by the read bases and the reference bases under the alignment.
#[unsafe(no_mangle)]
pub extern "C" fn codec_ffi_extend_cigar(
    words: &[u32],
    read: &[u8],
    reference: &[u8],
    output: &mut [u32],
) -> CigarAnswer
    ensures { Converted (refusal_there words.now read.now reference.now (length output.old)) (extended words.now read.now reference.now) output.old output.new result }
{
    CigarAnswer::from(extend_cigar(words, read, reference, output))
}

// = and X become M again, and neighbouring M's join.
#[unsafe(no_mangle)]
pub extern "C" fn codec_ffi_flatten_cigar(words: &[u32], output: &mut [u32]) -> CigarAnswer
    ensures { Converted (refusal_back words.now (length output.old)) (plain words.now) output.old output.new result }
{
    CigarAnswer::from(flatten_cigar(words, output))
}
