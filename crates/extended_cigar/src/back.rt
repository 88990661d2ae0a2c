// The way back: = and X become M, and neighbouring M's join.
ghost use Rattle.std.specs.Prelude.{◌≡◌, length, Ok};
ghost use Rattle.lists.specs.Written.{written};
ghost use Rattle.raw_bam.specs.Cigar.{op_code};
ghost use Rattle.extended_cigar.specs.Plain.{plain_word, both_m, plain};
ghost use Rattle.extended_cigar.specs.Refusals.{refusal_back};

use crate::refusal::is_extended;

#[tactic(auto, unfolding(crate::specs::Plain::plain_word))]
fn plain_word(word: u32) -> u32
    ensures { result ≡ plain_word word }
{
    if is_extended(word) {
        word / 16 * 16
    } else {
        word
    }
}

// Two M's, which join.
fn are_both_m(word: u32, next: u32) -> bool
    ensures { result ≡ both_m (op_code word) (op_code next) }
{
    word % 16 == 0 && next % 16 == 0
}

// Writes the plain list, and answers the number of its words; an M of at most 1,024 bases has room in a word.
// Not one loop with the other way: which neighbours join, as a parameter, is as long as what they share.
pub fn write_plain(words: &[u32], output: &mut [u32]) -> usize
    requires { refusal_back words.now (length output.old) ≡ Ok tt }
    ensures count { result ≡ length (plain words.now) }
    ensures stored { output.new ≡ written (plain words.now) output.old }
{
    let mut n = 0;
    for &word in words {
        let word = plain_word(word);
        if 0 < n && are_both_m(output[n - 1], word) {
            output[n - 1] += word;
        } else {
            output[n] = word;
            n += 1;
        }
    }
    n
}
