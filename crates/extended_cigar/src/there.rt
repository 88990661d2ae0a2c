// The way there: each M by the bases under it.
ghost use Rattle.std.specs.Prelude.{◌≡◌, ◌+◌, ◌≤◌, ◌<◌, length, Ok};
ghost use Rattle.lists.specs.Written.{written};
ghost use Rattle.raw_bam.specs.Cigar.{read_bases, reference_bases};
ghost use Rattle.raw_bam.specs.Simplified.{joined};
ghost use Rattle.extended_cigar.specs.Extended.{base_word, base_by_base, extended_word, extended};
ghost use Rattle.extended_cigar.specs.Refusals.{refusal_there};

use raw_bam::cigar::bases_of;

// = for equal bytes, X for others, of one base.
#[tactic(auto, unfolding(crate::specs::Extended::base_word))]
fn base_word(base: u8, under: u8) -> u32
    ensures { result ≡ base_word base under }
{
    if base == under { 23 } else { 24 }
}

// Writes the words of one M, neighbours of one kind joined, and answers how many. The last word is at hand, and stored as the next one
// begins: where it is read back and stored at each base, a long M takes half as long again.
fn write_match(read: &[u8], reference: &[u8], output: &mut [u32]) -> usize
    requires few { length read.now ≤ 1024 }
    requires as_many { length reference.now ≡ length read.now }
    requires room { length read.now ≤ length output.old }
    ensures count { result ≡ length (joined (base_by_base read.now reference.now 0 0 (length read.now))) }
    ensures stored { output.new ≡ written (joined (base_by_base read.now reference.now 0 0 (length read.now))) output.old }
{
    let bases = read.len();
    if bases == 0 {
        return 0;
    }
    let mut last = base_word(read[0], reference[0]);
    let mut n = 0;
    for k in 1..bases {
        let word = base_word(read[k], reference[k]);
        if last % 16 == word % 16 {
            last += word / 16 * 16;
        } else {
            output[n] = last;
            n += 1;
            last = word;
        }
    }
    output[n] = last;
    n + 1
}

// Writes the words of one operation: those of an M by its bases, any other as it is.
#[tactic(auto, unfolding(crate::specs::Extended::extended_word))]
fn write_word(word: u32, read: &[u8], reference: &[u8], output: &mut [u32]) -> usize
    requires few { read_bases word ≤ 1024 }
    requires read { length read.now ≡ read_bases word }
    requires reference { length reference.now ≡ reference_bases word }
    requires room { read_bases word < length output.old }
    ensures count { result ≡ length (extended_word read.now reference.now 0 0 word) }
    ensures stored { output.new ≡ written (extended_word read.now reference.now 0 0 word) output.old }
{
    if word % 16 == 0 {
        write_match(read, reference, output)
    } else {
        output[0] = word;
        1
    }
}

// Writes the extended list, and answers the number of its words. Into a lent slice, since there is no heap; no struct of the lists, since each
// operation takes its own part of two of them.
pub fn write_extended(words: &[u32], read: &[u8], reference: &[u8], output: &mut [u32]) -> usize
    requires { refusal_there words.now read.now reference.now (length output.old) ≡ Ok tt }
    ensures count { result ≡ length (extended words.now read.now reference.now) }
    ensures stored { output.new ≡ written (extended words.now read.now reference.now) output.old }
{
    let mut read_left = read;
    let mut reference_left = reference;
    let mut n = 0;
    for &word in words {
        let bases = bases_of(word);
        let (own_read, read_after) = read_left.split_at(bases.read as usize);
        let (own_reference, reference_after) = reference_left.split_at(bases.reference as usize);
        n += write_word(word, own_read, own_reference, &mut output[n..]);
        read_left = read_after;
        reference_left = reference_after;
    }
    n
}
