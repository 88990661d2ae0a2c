// Plain and extended lists: what each way gives.
use crate::cigar::{Cigar, Listed};
use extended_cigar::convert::{CigarAnswer, extend_cigar, flatten_cigar};
use extended_cigar::refusal::CigarRefusal;
use std::{array, io};

const ROOM: usize = 2048;

// The words that a host finds, or the answer that refuses them.
fn told(answer: CigarAnswer, output: &[u32; ROOM]) -> Result<&[u32], CigarAnswer> {
    if answer.kind == 0 {
        Ok(&output[..ROOM.min(answer.count as usize)])
    } else {
        Err(answer)
    }
}

fn put_refusal(rt: &impl Print, answer: CigarAnswer) -> io::Result<()> {
    print!(rt; "refused {} {}", answer.number, answer.with)
}

fn put_back(rt: &impl Print, words: &[u32]) -> io::Result<()> {
    let mut output = [0; ROOM];
    let answer = CigarAnswer::from(flatten_cigar(words, &mut output));
    match told(answer, &output) {
        Ok(plain) => print!(rt; "{}", Listed { entries: plain }),
        Err(answer) => put_refusal(rt, answer),
    }
}

fn put_there(rt: &impl Print, words: &[u32], read: &[u8], reference: &[u8]) -> io::Result<()> {
    let mut output = [0; ROOM];
    let answer = CigarAnswer::from(extend_cigar(words, read, reference, &mut output));
    match told(answer, &output) {
        Ok(extended) => {
            print!(rt; "{} back ", Listed { entries: extended })?;
            put_back(rt, extended)
        }
        Err(answer) => put_refusal(rt, answer),
    }
}

// The extended list, and what that goes back to.
pub fn show_there(rt: &impl Print, text: &str, read: &str, reference: &str) -> io::Result<()> {
    let cigar = Cigar::parse(text);
    print!(rt; "there {text} {read} {reference} ")?;
    put_there(rt, cigar.words(), read.as_bytes(), reference.as_bytes())?;
    println!(rt; "")
}

pub fn show_back(rt: &impl Print, text: &str) -> io::Result<()> {
    let cigar = Cigar::parse(text);
    print!(rt; "back {text} ")?;
    put_back(rt, cigar.words())?;
    println!(rt; "")
}

fn show_count(
    rt: &impl Print,
    title: &str,
    converted: Result<usize, CigarRefusal>,
) -> io::Result<()> {
    let answer = CigarAnswer::from(converted);
    print!(rt; "{title} ")?;
    if answer.kind == 0 {
        println!(rt; "{} words", answer.count)
    } else {
        put_refusal(rt, answer)?;
        println!(rt; "")
    }
}

// So many 1D, and 1024M of which every second base differs.
pub fn show_most(rt: &impl Print) -> io::Result<()> {
    let mut output = [0; ROOM];
    let read: [u8; 1024] = array::from_fn(|i| if i % 2 == 1 { b'C' } else { b'A' });
    let mut most = [18; 64];
    most[63] = 16384;
    let converted = extend_cigar(&most, &read, &[b'A'; 1087], &mut output);
    show_count(rt, "there 63 times 1D, 1024M", converted)?;
    let mut more = [18; 65];
    more[64] = 16384;
    let converted = extend_cigar(&more, &read, &[b'A'; 1088], &mut output);
    show_count(rt, "there 64 times 1D, 1024M", converted)?;
    more[64] = 23;
    let converted = extend_cigar(&more, b"A", &[b'A'; 65], &mut output);
    show_count(rt, "there 64 times 1D, 1=", converted)
}

pub fn show_long(rt: &impl Print) -> io::Result<()> {
    let mut output = [0; ROOM];
    let longest = flatten_cigar(&[18; 1088], &mut output);
    show_count(rt, "back 1088 times 1D", longest)?;
    let longer = flatten_cigar(&[18; 1089], &mut output);
    show_count(rt, "back 1089 times 1D", longer)
}

pub fn show_small_output(rt: &impl Print) -> io::Result<()> {
    let mut output = [0; ROOM - 1];
    let there = extend_cigar(&[16], b"A", b"A", &mut output);
    show_count(rt, "there 1M into 2047 words", there)?;
    let there = extend_cigar(&[16], b"", b"A", &mut output);
    show_count(rt, "there 1M into 2047 words, no read base", there)?;
    let back = flatten_cigar(&[16], &mut output);
    show_count(rt, "back 1M into 2047 words", back)
}
