// Stored sheets: the bytes lent, the answer, how many of them are as they were, and the text.
#![tactic(auto)]

ghost use Rattle.std.specs.Prelude.{◌<◌};

use codec_stats::ledger::{COUNTS, Ledger};
use codec_stats::refusals::{COUNTER_LIMIT, FAMILIES_LIMIT};
use sample_ledgers::samples::{SAMPLE_COUNTS, SAMPLES, store_sample};
use sheet_text::sheet::write_sheet;
use std::io;

// No byte of a sheet is the mark.
const MARK: u8 = b'#';

fn marks_in(buffer: &[u8]) -> usize {
    buffer.iter().filter(|&&byte| byte == MARK).count()
}

fn show_in(rt: &impl Print, samples: &[u64; SAMPLE_COUNTS], buffer: &mut [u8]) -> io::Result<()> {
    let answer = write_sheet(samples, buffer);
    let bytes = buffer.len();
    let marks = marks_in(buffer);
    match answer {
        Ok(size) => {
            println!(rt; "{bytes} bytes: written {size}, {marks} as before")?;
            rt.write_all(&buffer[..size])
        }
        Err(refusal) => {
            let number = u32::from(refusal);
            println!(rt; "{bytes} bytes: refused {number}, {marks} as before")
        }
    }
}

// Into the shortest buffer, and into one that is a byte shorter.
fn show(rt: &impl Print, samples: &[u64; SAMPLE_COUNTS]) -> io::Result<()> {
    show_in(rt, samples, &mut [MARK; 16384])?;
    show_in(rt, samples, &mut [MARK; 16383])
}

// Every count at its limit but the duplex bases: the longest line.
fn show_longest(rt: &impl Print) -> io::Result<()> {
    let longest = Ledger {
        families: FAMILIES_LIMIT,
        duplex_bases: 1,
        ..Ledger::from([COUNTER_LIMIT; COUNTS])
    };
    let mut samples = [0; SAMPLE_COUNTS];
    for sample in 0..SAMPLES {
        store_sample(&mut samples, sample, longest);
    }
    show(rt, &samples)
}

// The filtered records of the last sample are filtered by their overlap.
fn show_two(rt: &impl Print) -> io::Result<()> {
    let mut samples = [0; SAMPLE_COUNTS];
    let third = Ledger {
        families: 1,
        records: 2,
        duplexes: 1,
        bases: 15,
        duplex_bases: 5,
        disagreements: 1,
        ..Ledger::default()
    };
    store_sample(&mut samples, 3, third);
    let last = Ledger {
        families: 2,
        records: 4,
        reasons: [0, 0, 0, 0, 0, 2, 0, 0, 0, 0],
        duplexes: 1,
        bases: 15,
        duplex_bases: 5,
        ..Ledger::default()
    };
    store_sample(&mut samples, SAMPLES - 1, last);
    show(rt, &samples)?;
    show_in(rt, &samples, &mut [MARK; 16390])
}

// One count of sample 7, which has no family but that.
fn show_count(rt: &impl Print, place: usize, count: u64) -> io::Result<()>
    requires { place < COUNTS }
{
    let mut samples = [0; SAMPLE_COUNTS];
    samples[7 * COUNTS + place] = count;
    show(rt, &samples)
}

fn main(rt: HostRuntime) -> io::Result<()> {
    show(&rt, &[0; SAMPLE_COUNTS])?;
    show_two(&rt)?;
    show_count(&rt, 14, COUNTER_LIMIT)?;
    show_count(&rt, 14, COUNTER_LIMIT + 1)?;
    show_count(&rt, 0, FAMILIES_LIMIT + 1)?;
    show_longest(&rt)
}
