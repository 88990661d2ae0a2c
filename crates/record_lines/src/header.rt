// The first line of a family, `F RECORDS WORDS MIN CAP MINDUPLEX LEGACY OUTERLEN OUTERQ SSQ MAXDIS RATE R1 R2 COLS LIST MARKS`.
ghost use Rattle.std.specs.Prelude.{◌≡◌};
ghost use Rattle.std.specs.Float.Ieee.{of_bits};
ghost use Rattle.std.specs.Float.{binary64};
ghost use Rattle.line_text.specs.Fit.{Fitting};
ghost use Rattle.record_lines.specs.Header.{header_layout, options_from, header_from, header_of};

use codec_records::options::Options;
use line_text::line;
use line_text::value::{Kind, Value};

// How many fields stand behind the tag.
const FIELDS: usize = 16;

// How many lines and words follow, the options, whether the lines of the strands follow, and the lengths of the lent columns.
#[derive(Clone, Copy)]
pub struct Header {
    pub records: usize,
    pub words: usize,
    pub options: Options,
    pub r1_follows: bool,
    pub r2_follows: bool,
    pub columns: usize,
    pub list: usize,
    pub marks: usize,
}

// Any pattern of a NaN is the NaN.
fn rate(bits: u64) -> f64
    ensures { result ≡ of_bits binary64 bits }
{
    if bits % 9223372036854775808 / 4503599627370496 != 2047 {
        return f64::from_bits(bits);
    }
    if bits % 4503599627370496 == 0 {
        return f64::from_bits(bits);
    }
    0.0 / 0.0
}

#[tactic(auto, unfolding(crate::specs::Header::options_from))]
fn options_from(values: &[Value; FIELDS]) -> Options
    requires { Fitting header_layout values.now }
    ensures { result ≡ options_from values.now }
{
    Options {
        min_reads_per_strand: values[2].magnitude(),
        has_max_reads_per_strand: values[3].is_number(),
        max_reads_per_strand: values[3].magnitude(),
        min_duplex_length: values[4].magnitude(),
        legacy_overlap_window: values[5].magnitude() == 1,
        outer_bases_length: values[6].magnitude(),
        has_outer_bases_qual: values[7].is_number(),
        outer_bases_qual: values[7].magnitude() as u8,
        has_single_strand_qual: values[8].is_number(),
        single_strand_qual: values[8].magnitude() as u8,
        max_duplex_disagreements: values[9].magnitude(),
        max_duplex_disagreement_rate: rate(values[10].magnitude()),
    }
}

#[tactic(auto, unfolding(crate::specs::Header::header_from))]
fn header_from(values: &[Value; FIELDS]) -> Header
    requires { Fitting header_layout values.now }
    ensures { result ≡ header_from values.now }
{
    Header {
        records: values[0].magnitude() as usize,
        words: values[1].magnitude() as usize,
        options: options_from(values),
        r1_follows: values[11].magnitude() == 1,
        r2_follows: values[12].magnitude() == 1,
        columns: values[13].magnitude() as usize,
        list: values[14].magnitude() as usize,
        marks: values[15].magnitude() as usize,
    }
}

// The header of a line. CAP, OUTERQ and SSQ may be none.
pub fn header_line(line: &[u8]) -> Option<Header>
    ensures { result ≡ header_of line.now }
{
    let layout = [
        Kind::Plain(600),
        Kind::Plain(9000),
        Kind::Plain(u64::MAX),
        Kind::OrNone(u64::MAX),
        Kind::Plain(u64::MAX),
        Kind::Plain(1),
        Kind::Plain(u64::MAX),
        Kind::OrNone(255),
        Kind::OrNone(255),
        Kind::Plain(u64::MAX),
        Kind::Plain(u64::MAX),
        Kind::Plain(1),
        Kind::Plain(1),
        Kind::Plain(2100),
        Kind::Plain(600),
        Kind::Plain(16),
    ];
    let values = line::read_line(line, b"F", &layout)?;
    Some(header_from(&values))
}
