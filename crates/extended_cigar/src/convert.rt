// Both conversions, and what a host is told.
ghost use Rattle.std.specs.Prelude.{length, ◌≡◌};
ghost use Rattle.extended_cigar.specs.Converted.{counted, output_of, told_of};
ghost use Rattle.extended_cigar.specs.Extended.{extended};
ghost use Rattle.extended_cigar.specs.Plain.{plain};
ghost use Rattle.extended_cigar.specs.Refusals.{refusal_there, refusal_back};

use crate::back::write_plain;
use crate::refusal::{CigarRefusal, check_extended, check_plain};
use crate::there::write_extended;

// Numbers, since no enum crosses the C interface: kind 0 has the number of words written, 1 a refusal's number and 0.
#[repr(C)]
#[derive(Clone, Copy, Debug, PartialEq, Eq)]
pub struct CigarAnswer {
    pub kind: u32,
    pub number: u32,
    pub with: u64,
    pub count: u64,
}

impl From<Result<usize, CigarRefusal>> for CigarAnswer {
    ghost from_gives = { λ converted told. told ≡ told_of converted };

    fn from(converted: Result<usize, CigarRefusal>) -> CigarAnswer {
        match converted {
            Ok(count) => CigarAnswer {
                kind: 0,
                number: 0,
                with: 0,
                count: count as u64,
            },
            Err(refusal) => CigarAnswer {
                kind: 1,
                number: u32::from(refusal),
                with: 0,
                count: 0,
            },
        }
    }
}

// M becomes = and X by the bases. Answers the number of words written.
pub fn extend_cigar(
    words: &[u32],
    read: &[u8],
    reference: &[u8],
    output: &mut [u32],
) -> Result<usize, CigarRefusal>
    ensures value { result ≡ counted (refusal_there words.now read.now reference.now (length output.old)) (extended words.now read.now reference.now) }
    ensures output_after { output.new ≡ output_of (refusal_there words.now read.now reference.now (length output.old)) (extended words.now read.now reference.now) output.old }
{
    check_plain(words, read, reference, output.len())?;
    Ok(write_extended(words, read, reference, output))
}

// = and X become M again.
pub fn flatten_cigar(words: &[u32], output: &mut [u32]) -> Result<usize, CigarRefusal>
    ensures value { result ≡ counted (refusal_back words.now (length output.old)) (plain words.now) }
    ensures output_after { output.new ≡ output_of (refusal_back words.now (length output.old)) (plain words.now) output.old }
{
    check_extended(words, output.len())?;
    Ok(write_plain(words, output))
}
