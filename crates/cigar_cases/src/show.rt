// The lines on records' CIGARs.
ghost use Rattle.std.specs.Prelude.{◌≤◌, length};

use crate::cigar::{Cigar, Listed};
use raw_bam::cigar::{read_length_from_cigar, reference_length_from_cigar};
use raw_bam::prefix::{is_cigar_prefix, is_cigar_smaller};
use raw_bam::read_pos::read_pos_at_ref_pos_raw;
use raw_bam::simplified::simplify_cigar_from_raw;
use std::io;

pub fn yes_or_no(yes: bool) -> &'static str {
    if yes { "yes" } else { "no" }
}

// A simplified list, of no more entries than the CIGAR has operations.
#[derive(Drop)]
struct Simplified {
    entries: [u64; 64],
    len: usize,
    ghost few: { len ≤ 64 },
}

impl Simplified {
    fn of(ops: &[u32], reverse: bool) -> Self
        requires { length ops.now ≤ 64 }
    {
        let mut entries = [0; 64];
        let len = simplify_cigar_from_raw(ops, reverse, &mut entries);
        Simplified { entries, len }
    }

    fn as_slice(&self) -> &[u64] {
        &self.entries[..self.len]
    }
}

fn put_simplified(rt: &impl Print, ops: &[u32], reverse: bool) -> io::Result<()>
    requires { length ops.now ≤ 64 }
{
    let simplified = Simplified::of(ops, reverse);
    print!(rt;
        " {}",
        Listed {
            entries: simplified.as_slice()
        }
    )
}

fn put_summary(rt: &impl Print, ops: &[u32]) -> io::Result<()>
    requires { length ops.now ≤ 64 }
{
    print!(rt;
        " {} {}",
        read_length_from_cigar(ops),
        reference_length_from_cigar(ops)
    )?;
    put_simplified(rt, ops, false)?;
    put_simplified(rt, ops, true)?;
    println!(rt; "")
}

// Read length, reference length, the simplified list, and that of a reverse record.
pub fn show_cigar(rt: &impl Print, text: &str) -> io::Result<()> {
    let cigar = Cigar::parse(text);
    print!(rt; "cigar {text}")?;
    put_summary(rt, cigar.words())
}

// The same of 64 operations that are all of one length and code.
pub fn show_repeated(rt: &impl Print, text: &str) -> io::Result<()> {
    let cigar = Cigar::parse(text);
    if let Some(&word) = cigar.words().first() {
        print!(rt; "64 times {text}")?;
        put_summary(rt, &[word; 64])?;
    }
    Ok(())
}

// Whether the first simplified list is a prefix of the second, and whether it is the smaller.
pub fn show_pair(rt: &impl Print, a: &str, b: &str) -> io::Result<()> {
    let xs = Simplified::of(Cigar::parse(a).words(), false);
    let ys = Simplified::of(Cigar::parse(b).words(), false);
    let prefix = is_cigar_prefix(xs.as_slice(), ys.as_slice());
    let smaller = is_cigar_smaller(xs.as_slice(), ys.as_slice());
    println!(rt;
        "pair {a} {b} prefix {} smaller {}",
        yes_or_no(prefix),
        yes_or_no(smaller)
    )
}

fn put_position(rt: &impl Print, position: Option<u64>) -> io::Result<()> {
    match position {
        Some(p) => print!(rt; " {p}"),
        None => print!(rt; " none"),
    }
}

// A line for each reference position from `first` up to `end`: the record's start, the reference position, and its read
// position without and with the last base.
pub fn show_positions(
    rt: &impl Print,
    text: &str,
    start: u64,
    first: u64,
    end: u64,
) -> io::Result<()> {
    let cigar = Cigar::parse(text);
    for position in first..end {
        print!(rt; "position {text} {start} {position}")?;
        put_position(
            rt,
            read_pos_at_ref_pos_raw(cigar.words(), start, position, false),
        )?;
        put_position(
            rt,
            read_pos_at_ref_pos_raw(cigar.words(), start, position, true),
        )?;
        println!(rt; "")?;
    }
    Ok(())
}
