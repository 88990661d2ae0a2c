// What a family call is lent, and what it left there.
ghost use Rattle.std.specs.Prelude.{◌≡◌, ◌≤◌};
ghost use Rattle.codec_family.specs.Call.{room_of};
ghost use Rattle.codec_family.specs.Lent.{lent_in};
ghost use Rattle.answer_text.specs.Left.{left_shown};

use answer_text::left::Left;
use codec_duplex::strand::Strand;
use codec_family::lent::Lent;
use record_lines::header::Header;

// The longest columns, list and marks that a header announces.
const COLUMNS: usize = 2100;

const LIST: usize = 600;

const MARKS: usize = 16;

// The columns of the duplex and of both padded strands, the handover list, and the marks.
#[derive(Drop)]
pub struct Columns {
    duplex_bases: [u8; COLUMNS],
    duplex_quals: [u8; COLUMNS],
    duplex_depths: [u16; COLUMNS],
    duplex_errors: [u16; COLUMNS],
    r1_bases: [u8; COLUMNS],
    r1_quals: [u8; COLUMNS],
    r1_depths: [u16; COLUMNS],
    r1_errors: [u16; COLUMNS],
    r2_bases: [u8; COLUMNS],
    r2_quals: [u8; COLUMNS],
    r2_depths: [u16; COLUMNS],
    r2_errors: [u16; COLUMNS],
    listed: [u32; LIST],
    reasons: [u8; LIST],
    marks: [u64; MARKS],
}

impl Columns {
    ghost use Rattle.family_calls.specs.Columns.{columns_in};
    ghost use Rattle.family_calls.specs.Room.{room_for, Roomy};

    pub fn new() -> Columns {
        Columns {
            duplex_bases: [0; COLUMNS],
            duplex_quals: [0; COLUMNS],
            duplex_depths: [0; COLUMNS],
            duplex_errors: [0; COLUMNS],
            r1_bases: [0; COLUMNS],
            r1_quals: [0; COLUMNS],
            r1_depths: [0; COLUMNS],
            r1_errors: [0; COLUMNS],
            r2_bases: [0; COLUMNS],
            r2_quals: [0; COLUMNS],
            r2_depths: [0; COLUMNS],
            r2_errors: [0; COLUMNS],
            listed: [0; LIST],
            reasons: [0; LIST],
            marks: [0; MARKS],
        }
    }

    // As much as the header announces.
    pub fn lend(&mut self, header: &Header) -> Lent<'_>
        requires columns { header.now.columns ≤ 2100 }
        requires list { header.now.list ≤ 600 }
        requires marks { header.now.marks ≤ 16 }
        ensures { room_of (lent_in result) ≡ room_for header.now }
    {
        let n = header.columns;
        let Columns {
            duplex_bases,
            duplex_quals,
            duplex_depths,
            duplex_errors,
            r1_bases,
            r1_quals,
            r1_depths,
            r1_errors,
            r2_bases,
            r2_quals,
            r2_depths,
            r2_errors,
            listed,
            reasons,
            marks,
        } = self;
        Lent {
            duplex_bases: &mut duplex_bases[..n],
            duplex_quals: &mut duplex_quals[..n],
            duplex_depths: &mut duplex_depths[..n],
            duplex_errors: &mut duplex_errors[..n],
            r1_bases: &mut r1_bases[..n],
            r1_quals: &mut r1_quals[..n],
            r1_depths: &mut r1_depths[..n],
            r1_errors: &mut r1_errors[..n],
            r2_bases: &mut r2_bases[..n],
            r2_quals: &mut r2_quals[..n],
            r2_depths: &mut r2_depths[..n],
            r2_errors: &mut r2_errors[..n],
            listed_records: &mut listed[..header.list],
            listed_reasons: &mut reasons[..header.list],
            marks: &mut marks[..header.marks],
        }
    }

    // What a call left in them.
    pub fn left(&self) -> Left<'_>
        ensures shown { left_shown result ≡ columns_in self.now }
        ensures roomy { Roomy (left_shown result) }
    {
        Left {
            duplex: Strand {
                bases: &self.duplex_bases,
                quals: &self.duplex_quals,
                depths: &self.duplex_depths,
                errors: &self.duplex_errors,
            },
            r1: Strand {
                bases: &self.r1_bases,
                quals: &self.r1_quals,
                depths: &self.r1_depths,
                errors: &self.r1_errors,
            },
            r2: Strand {
                bases: &self.r2_bases,
                quals: &self.r2_quals,
                depths: &self.r2_depths,
                errors: &self.r2_errors,
            },
            listed: &self.listed,
            reasons: &self.reasons,
            marks: &self.marks,
        }
    }
}
