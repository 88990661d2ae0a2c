// Outside vectors over CIGARs, one line for each, held to what was worked out from the documents.
#![tactic(auto)]

mod cigar;
mod extended;
mod group;
mod show;

use extended::{show_back, show_long, show_most, show_small_output, show_there};
use group::{Read, show_group};
use show::{show_cigar, show_pair, show_positions, show_repeated};
use std::io;

// A CIGAR, the record's start, and the reference positions that are asked for, the last one excluded.
type Positions = (&'static str, u64, u64, u64);

// The alignments of the SAM specification's own example (section 1.1), from before the start to past the end.
const SAM_EXAMPLE: [Positions; 6] = [
    ("8M2I4M1D3M", 7, 6, 24),
    ("3S6M1P1I4M", 9, 8, 20),
    ("5S6M", 9, 8, 16),
    ("6M14N5M", 16, 15, 42),
    ("6H5M", 29, 28, 35),
    ("9M", 37, 36, 47),
];

// Request 07's last base: inserted and clipped bases count, where an M, = or X came before.
const LAST_BASES: [Positions; 10] = [
    ("5M3I2D4M", 1, 5, 12),
    ("5M2D4M", 1, 5, 9),
    ("5M3S2D4M", 1, 5, 9),
    ("5M3I2N4M", 1, 5, 9),
    ("5M3H2D4M", 1, 5, 9),
    ("2S5=1X3I1P2D4M", 1, 6, 10),
    ("4M2D2I2N3M", 1, 4, 10),
    ("3S2D5M", 1, 1, 4),
    ("2I2D5M", 1, 1, 4),
    ("5M3I", 1, 5, 7),
];

// Gaps at the ends, pads and clips around them, and an M of no base.
const LAST_BASES_AT_THE_ENDS: [Positions; 8] = [
    ("5M3I2D", 1, 5, 9),
    ("4M2D2I2N", 1, 4, 10),
    ("3S2I2D1M", 10, 9, 14),
    ("2=1D2X1N1I", 3, 2, 10),
    ("2H2P2M1P1D1P2M2P2H", 1, 1, 7),
    ("0M2D1M", 1, 1, 4),
    ("4S", 5, 4, 7),
    ("*", 1, 0, 3),
];

const LENGTHS_OF_28_BITS: [Positions; 3] = [
    ("268435455M1D1M", 1, 268435454, 268435459),
    (
        "268435455S268435455M268435455N1M",
        536870911,
        805306365,
        805306368,
    ),
    (
        "268435455S268435455M268435455N1M",
        536870911,
        1073741820,
        1073741823,
    ),
];

const SIMPLIFIED: [&'static str; 14] = [
    "8M2I4M1D3M",
    "3S6M1P1I4M",
    "5S6M",
    "6M14N5M",
    "6H5M",
    "9M",
    "5=2X3=1D4X",
    "2H3S4M5S6H",
    "2P3M4P",
    "1H2P3M4P5H",
    "2I3I4M1D1D2N3N1P1P5M",
    "1M2M3I4D",
    "7H",
    "*",
];

const PREFIXES: [(&'static str, &'static str); 18] = [
    ("*", "*"),
    ("*", "5M"),
    ("5M", "*"),
    ("5M", "5M"),
    ("5M", "6M"),
    ("6M", "5M"),
    ("5M", "6M1I5M"),
    ("6M1I5M", "6M2D6M"),
    ("6M2D6M", "6M1I5M"),
    ("6M1I", "6M1I5M"),
    ("6M1I5M", "6M1I"),
    ("6M1I4M", "6M1I5M2D"),
    ("6M1I6M", "6M1I5M2D"),
    ("5M1I5M", "6M1I5M"),
    ("6M1D", "6M1I5M"),
    ("3M100H", "5M"),
    ("5M", "3M100H"),
    ("2S3=", "4M1X"),
];

// By length before code, entry by entry, and by the number of entries last.
const TIES: [(&'static str, &'static str); 9] = [
    ("3I2M", "3D1M"),
    ("3D1M", "3I2M"),
    ("2N9M", "3I1M"),
    ("1P", "1N"),
    ("1N", "1P"),
    ("6M2I1M", "6M1D9M"),
    ("6M1I", "6M1I1M"),
    ("6M1I1M", "6M1I"),
    ("268435455M1I", "268435455H1S1I"),
];

fn forward(cigar: &'static str, clipped: u32) -> Read<'static> {
    Read {
        cigar,
        clipped,
        reverse: false,
    }
}

fn backward(cigar: &'static str, clipped: u32) -> Read<'static> {
    Read {
        reverse: true,
        ..forward(cigar, clipped)
    }
}

// The first is document 01's case G1: the third joins both groups, and the smaller first list wins.
fn groups() -> [[Read<'static>; 3]; 9] {
    [
        [
            forward("6M2D6M", 12),
            forward("6M1I5M", 12),
            forward("5M", 5),
        ],
        [
            forward("5M", 5),
            forward("6M1I5M", 12),
            forward("6M2D6M", 12),
        ],
        [forward("10M", 10), forward("10M", 10), forward("9M", 9)],
        [
            forward("10M", 10),
            forward("5M1I4M", 10),
            forward("5M1D5M", 10),
        ],
        [
            forward("5M2D3M", 8),
            backward("2I", 2),
            backward("3M2D5M", 8),
        ],
        [forward("5M", 5), forward("3M100H", 3), forward("5M", 5)],
        [forward("3M100H", 3), forward("5M", 5), forward("5M", 5)],
        [forward("5M1D1M", 6), forward("5M1I1M", 7), forward("4M", 4)],
        [
            backward("2M1I3M", 6),
            forward("3M1I2M", 6),
            forward("4M1D1M", 5),
        ],
    ]
}

// Document 02, Req 08: M as = and X by the bases, and back: a CIGAR, read bases and reference bases.
const THERE: [(&'static str, &'static str, &'static str); 16] = [
    ("3M3M", "ACGTTT", "ACGTTT"),
    ("3M3M", "ACGTTT", "ACATTT"),
    ("5M3I2D4M", "AAAAACCCGGGG", "AAAATTTGGGC"),
    ("2H3S4M2N1P2M1I3S2H", "tttACGTGTCggg", "ACCTnnGA"),
    ("1M", "N", "N"),
    ("1M", "a", "A"),
    ("*", "", ""),
    ("1I1I1M1M2D2D", "ACGT", "GAAAAA"),
    ("1M", "", "A"),
    ("1M", "A", ""),
    ("1M", "AA", "A"),
    ("2M1=", "AAA", "AAA"),
    ("2M1X", "AAA", "AAA"),
    ("0M", "", ""),
    ("1Q", "", ""),
    ("1025S", "A", ""),
];

const BACK: [&'static str; 9] = [
    "1M1=1X2M",
    "1024=",
    "1023=1X1I",
    "1=1I1I1X",
    "3S2=1X2D2D1=4H",
    "268435455H268435455H268435455N",
    "*",
    "0=",
    "1Q",
];

fn show_each(rt: &impl Print, cases: &[Positions]) -> io::Result<()> {
    for &(cigar, start, first, end) in cases {
        show_positions(rt, cigar, start, first, end)?;
    }
    Ok(())
}

fn show_records(rt: &impl Print) -> io::Result<()> {
    show_each(rt, &SAM_EXAMPLE)?;
    show_each(rt, &LAST_BASES)?;
    show_each(rt, &LAST_BASES_AT_THE_ENDS)?;
    show_each(rt, &LENGTHS_OF_28_BITS)?;
    show_cigar(rt, "268435455M268435455H")?;
    for cigar in ["268435455H", "268435455P", "268435455X"] {
        show_repeated(rt, cigar)?;
    }
    for cigar in SIMPLIFIED {
        show_cigar(rt, cigar)?;
    }
    Ok(())
}

fn show_groups(rt: &impl Print) -> io::Result<()> {
    for (a, b) in PREFIXES {
        show_pair(rt, a, b)?;
    }
    for (a, b) in TIES {
        show_pair(rt, a, b)?;
    }
    for reads in groups() {
        show_group(rt, reads)?;
    }
    Ok(())
}

fn show_conversions(rt: &impl Print) -> io::Result<()> {
    for (cigar, read, reference) in THERE {
        show_there(rt, cigar, read, reference)?;
    }
    for cigar in BACK {
        show_back(rt, cigar)?;
    }
    show_most(rt)?;
    show_long(rt)?;
    show_small_output(rt)
}

fn main(rt: HostRuntime) -> io::Result<()> {
    show_records(&rt)?;
    show_groups(&rt)?;
    show_conversions(&rt)
}
