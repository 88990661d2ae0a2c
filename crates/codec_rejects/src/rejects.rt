// The marks and the handover list of a family, read off its fates.
ghost use Rattle.std.specs.Prelude.{map, ◌≡◌, ◌≤◌, length, take};
ghost use Rattle.std.specs.Int.Count.{ones};
ghost use Rattle.lists.specs.Total.{total};
ghost use Rattle.lists.specs.Written.{written};
ghost use Rattle.caller.specs.Fates.{is_marked};
ghost use Rattle.codec_rejects.specs.Handover.{mark_words, handover, listed_records, listed_reasons};

use caller::fates::{is_marked, is_rejection};
use codec_records::marks::marks_of;

// Writes the marks, all eight words.
pub fn write_marks(fates: &[u8], marks: &mut [u64])
    requires { (length fates.now ≤ 512) × (8 ≤ length marks.old) }
    ensures { marks.new ≡ written (mark_words fates.now) marks.old }
{
    let mut flags = [false; 512];
    for (i, &fate) in fates.iter().enumerate() {
        flags[i] = is_marked(fate);
    }
    marks[..8].copy_from_slice(&marks_of(&flags[..fates.len()]));
}

// How many records are marked.
#[tactic(auto, using(lists::proofs::Total::total_is_sum_by))]
pub fn count_marks(marks: &[u64]) -> u64
    requires { 8 ≤ length marks.now }
    ensures { result ≡ total ones (take 8 marks.now) }
{
    let words = &marks[..8];
    words.iter().map(|word| u64::from(word.count_ones())).sum()
}

// Writes the handover list, by rising record number, and answers its length. Two columns, as a host lends them.
#[tactic(auto, unfolding(lists::specs::Numbers::numbers_from))]
pub fn write_list(fates: &[u8], records: &mut [u32], reasons: &mut [u8]) -> usize
    requires fates_len_bound { length fates.now ≤ 512 }
    requires fates_in_bounds { length fates.now ≤ length records.old }
    requires fates_in_bounds_2 { length fates.now ≤ length reasons.old }
    ensures value { result ≡ length (handover fates.now) }
    ensures records_after { records.new ≡ written (listed_records fates.now) records.old }
    ensures reasons_after { reasons.new ≡ written (listed_reasons fates.now) reasons.old }
{
    let mut count = 0;
    for (i, &fate) in fates.iter().enumerate() {
        if is_rejection(fate) {
            records[count] = i as u32;
            reasons[count] = fate;
            count += 1;
        }
    }
    count
}
