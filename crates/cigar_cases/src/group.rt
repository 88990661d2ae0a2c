// Alignment groups of three records.
ghost use Rattle.std.specs.Prelude.{◌≤◌};

use crate::cigar::Cigar;
use crate::show::yes_or_no;
use std::io;
use vanilla_caller::group::select_most_common_alignment_group;
use vanilla_caller::side::Side;

// The CIGAR, the clipped length and the orientation of a record.
#[derive(Clone, Copy)]
pub struct Read<'a> {
    pub cigar: &'a str,
    pub clipped: u32,
    pub reverse: bool,
}

// Copies the operations of a record to their place among all, and answers how many they are.
fn copy_operations(read: Read<'_>, ops: &mut [u32; 192], start: usize) -> u32
    requires { start ≤ 128 }
    ensures { result ≤ 64 }
{
    let cigar = Cigar::parse(read.cigar);
    let words = cigar.words();
    ops[start..start + words.len()].copy_from_slice(words);
    words.len() as u32
}

// Which of three records stay; their operations are written one after the other, so that a part read too long shows.
pub fn show_group(rt: &impl Print, reads: [Read<'_>; 3]) -> io::Result<()> {
    let [a, b, c] = reads;
    let mut ops = [0; 192];
    let first = copy_operations(a, &mut ops, 0);
    let second = copy_operations(b, &mut ops, first as usize);
    let third = copy_operations(c, &mut ops, (first + second) as usize);
    let side = Side {
        ops: &ops,
        clipped: &[a.clipped, b.clipped, c.clipped],
        starts: &[0, first, first + second],
        counts: &[first, second, third],
        reverse: &[a.reverse, b.reverse, c.reverse],
    };
    let mut stays = [false; 3];
    select_most_common_alignment_group(&side, &mut stays);
    print!(rt; "group {}{}{}", a.cigar, b.cigar, c.cigar)?;
    for stay in stays {
        print!(rt; " {}", yes_or_no(stay))?;
    }
    println!(rt; "")
}
