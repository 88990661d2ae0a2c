// Refusals 24 to 26 of both ways.
ghost use Rattle.std.specs.Prelude.{◌≡◌};
ghost use Rattle.extended_cigar.specs.Extended.{is_extended};
ghost use Rattle.extended_cigar.specs.Refusals.{number_of, is_plain, bad_plain_words, bad_extended_words, lowest, past_plain_limits, past_extended_limits, refusal_there, refusal_back};

use raw_bam::cigar::{bases_of_cigar, is_operation, read_length_from_cigar};

const OUTPUT_WORDS: usize = 2048;

// Why a list is not converted, by its number in the table of refusals.
#[derive(Clone, Copy, Debug, PartialEq, Eq)]
pub enum CigarRefusal {
    // No operation, or = or X in a plain list.
    BadOperation = 24,
    // More words or read bases than accepted, or other bases than the list consumes.
    PastLimits = 25,
    SmallOutput = 26,
}

impl From<CigarRefusal> for u32 {
    ghost from_gives = { λ refusal n. n ≡ number_of refusal };

    fn from(refusal: CigarRefusal) -> u32 {
        refusal as u32
    }
}

pub fn is_extended(word: u32) -> bool
    ensures { result ≡ is_extended word }
{
    matches!(word % 16, 7 | 8)
}

fn is_plain(word: u32) -> bool
    ensures { result ≡ is_plain word }
{
    is_operation(word) && !is_extended(word)
}

// Operations are asked of the whole list, however long it is. Both ways ask three things of different lists; what they share is `lowest`.
#[tactic(auto, unfolding(crate::specs::Refusals::bad_plain_words))]
fn has_bad_plain_word(words: &[u32]) -> bool
    ensures { result ≡ bad_plain_words words.now }
{
    !words.iter().all(|word| is_plain(*word))
}

#[tactic(auto, unfolding(crate::specs::Refusals::bad_extended_words))]
fn has_bad_extended_word(words: &[u32]) -> bool
    ensures { result ≡ bad_extended_words words.now }
{
    !words.iter().all(|word| is_operation(*word))
}

// Only a short list is summed, so the sums fit.
#[tactic(auto, unfolding(crate::specs::Refusals::past_plain_limits))]
fn is_past_plain_limits(words: &[u32], read: usize, reference: usize) -> bool
    ensures { result ≡ past_plain_limits words.now read reference }
{
    if 64 < words.len() {
        return true;
    }
    let bases = bases_of_cigar(words);
    1024 < bases.read || read as u64 != bases.read || reference as u64 != bases.reference
}

#[tactic(auto, unfolding(crate::specs::Refusals::past_extended_limits))]
fn is_past_extended_limits(words: &[u32]) -> bool
    ensures { result ≡ past_extended_limits words.now }
{
    1088 < words.len() || 1024 < read_length_from_cigar(words)
}

// Lowest number first.
fn lowest(bad_operation: bool, past_limits: bool, small_output: bool) -> Result<(), CigarRefusal>
    ensures { result ≡ lowest bad_operation past_limits small_output }
{
    if bad_operation {
        Err(CigarRefusal::BadOperation)
    } else if past_limits {
        Err(CigarRefusal::PastLimits)
    } else if small_output {
        Err(CigarRefusal::SmallOutput)
    } else {
        Ok(())
    }
}

#[tactic(auto, unfolding(crate::specs::Refusals::refusal_there))]
pub fn check_plain(
    words: &[u32],
    read: &[u8],
    reference: &[u8],
    room: usize,
) -> Result<(), CigarRefusal>
    ensures { result ≡ refusal_there words.now read.now reference.now room }
{
    lowest(
        has_bad_plain_word(words),
        is_past_plain_limits(words, read.len(), reference.len()),
        room < OUTPUT_WORDS,
    )
}

#[tactic(auto, unfolding(crate::specs::Refusals::refusal_back))]
pub fn check_extended(words: &[u32], room: usize) -> Result<(), CigarRefusal>
    ensures { result ≡ refusal_back words.now room }
{
    lowest(
        has_bad_extended_word(words),
        is_past_extended_limits(words),
        room < OUTPUT_WORDS,
    )
}
