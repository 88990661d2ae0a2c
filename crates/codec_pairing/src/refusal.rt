// Refusals 1 to 6: what a family may not hold, asked before any step.
ghost use Rattle.std.specs.Prelude.{Bool, ◌≡◌, ◌≤◌, not, length};
ghost use Rattle.std.specs.List.{list_all};
ghost use Rattle.codec_pairing.specs.Family.{reads};
ghost use Rattle.codec_pairing.specs.Refusals.{ops_of, bad_part, bad_words, bad_bases, bad_place, read_of, Tests, lowest_bad, refusal_of_records, first_refusal};
ghost use Rattle.codec_pairing.specs.declared.refusal.Read.{Read as AnyRead};

use caller::fates::UNDECIDED;
use caller::refusal::Refusal;
use codec_records::family::Family;
use raw_bam::cigar::{is_operation, read_length_from_cigar, reference_length_from_cigar};

// What the refusals look at of a record, beside its operations.
#[derive(Clone, Copy)]
pub struct Read {
    pub clipped_length: u32,
    pub position: u32,
    pub start: u32,
    pub count: u32,
}

// The sum of start and count can pass 32 bits.
#[tactic(auto, unfolding(crate::specs::Refusals::bad_part))]
fn is_bad_part(words: usize, read: Read) -> bool
    ensures { result ≡ bad_part words read }
{
    words < read.start as usize + read.count as usize || 64 < read.count
}

#[tactic(auto, unfolding(crate::specs::Refusals::bad_words))]
fn has_bad_word(part: &[u32]) -> bool
    ensures { result ≡ bad_words part.now }
{
    !part.iter().all(|&word| is_operation(word))
}

#[tactic(auto, unfolding(crate::specs::Refusals::bad_bases))]
fn has_bad_bases(clipped: u32, part: &[u32]) -> bool
    requires { length part.now ≤ 8192 }
    ensures { result ≡ bad_bases clipped part.now }
{
    1024 < clipped || u64::from(clipped) != read_length_from_cigar(part)
}

#[tactic(auto, unfolding(crate::specs::Refusals::bad_place))]
fn is_bad_place(position: u32, part: &[u32]) -> bool
    requires { length part.now ≤ 8192 }
    ensures { result ≡ bad_place position part.now }
{
    position == 0 || 536870911 < position || 536870911 < reference_length_from_cigar(part)
}

// As much of a record's part as the slice has: a record that reaches beyond is refused for that first.
fn ops_of(ops: &[u32], read: Read) -> &[u32]
    ensures { result.now ≡ ops_of ops.now read }
{
    let start = (read.start as usize).min(ops.len());
    let end = (start + read.count as usize).min(ops.len());
    &ops[start..end]
}

// The lowest entered record that is bad. A for: of find the check does not see that none is passed over.
fn lowest_bad<F: Fn(Read) -> bool>(family: &Family, fates: &[u8], is_bad: F) -> Option<usize>
    requires fates_len { length fates.now ≡ length family.now.flags.now }
    requires callable { F.IsAlwaysCallable is_bad }
    ensures { (bad : AnyRead → Bool) → Tests (F.post is_bad) bad → result ≡ lowest_bad bad (reads fates.now family.now) }
{
    for i in 0..family.len() {
        let read = Read {
            clipped_length: family.clipped[i],
            position: family.positions[i],
            start: family.starts[i],
            count: family.counts[i],
        };
        if fates[i] == UNDECIDED && is_bad(read) {
            return Some(i);
        }
    }
    None
}

// All records are asked for one cause before any is asked for the next.
fn refusal_of_records(family: &Family, fates: &[u8]) -> Result<(), Refusal>
    requires fates_len { length fates.now ≡ length family.now.flags.now }
    requires ops_len_bound { length family.now.ops.now ≤ 8192 }
    ensures { result ≡ refusal_of_records (reads fates.now family.now) }
{
    let ops = family.ops;
    let by_part = lowest_bad(family, fates, |read| is_bad_part(ops.len(), read));
    if let Some(i) = by_part {
        return Err(Refusal::BadPart(i));
    }
    let by_words = lowest_bad(family, fates, |read| has_bad_word(ops_of(ops, read)));
    if let Some(i) = by_words {
        return Err(Refusal::BadOperation(i));
    }
    let by_bases = lowest_bad(family, fates, |read| {
        has_bad_bases(read.clipped_length, ops_of(ops, read))
    });
    if let Some(i) = by_bases {
        return Err(Refusal::BadLength(i));
    }
    let by_place = lowest_bad(
        family,
        fates,
        |read| is_bad_place(read.position, ops_of(ops, read)),
    );
    if let Some(i) = by_place {
        return Err(Refusal::BadPlace(i));
    }
    Ok(())
}

// Where the records or the words are too many, no record is read.
#[tactic(auto, unfolding(crate::specs::Refusals::first_refusal))]
pub fn first_refusal(
    minimum_duplex_length: u64,
    family: &Family,
    fates: &[u8],
) -> Result<(), Refusal>
    requires { length fates.now ≡ length family.now.flags.now }
    ensures { result ≡ first_refusal minimum_duplex_length family.now.given (reads fates.now family.now) }
{
    if 2147483647 < minimum_duplex_length {
        return Err(Refusal::MinimumTooLong);
    }
    if 512 < family.given || 8192 < family.ops.len() {
        return Err(Refusal::TooManyRecords);
    }
    refusal_of_records(family, fates)
}
