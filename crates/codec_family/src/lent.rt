// What a family call writes into.

use crate::room::{Room, Widths};

// The columns of the duplex and of both padded strands, the handover list, and the marks. Slices and no structs of
// slices: of a struct in a struct the proof of a caller does not learn what its own slices hold at the end.
#[derive(Drop)]
pub struct Lent<'a> {
    pub duplex_bases: &'a mut [u8],
    pub duplex_quals: &'a mut [u8],
    pub duplex_depths: &'a mut [u16],
    pub duplex_errors: &'a mut [u16],
    pub r1_bases: &'a mut [u8],
    pub r1_quals: &'a mut [u8],
    pub r1_depths: &'a mut [u16],
    pub r1_errors: &'a mut [u16],
    pub r2_bases: &'a mut [u8],
    pub r2_quals: &'a mut [u8],
    pub r2_depths: &'a mut [u16],
    pub r2_errors: &'a mut [u16],
    pub listed_records: &'a mut [u32],
    pub listed_reasons: &'a mut [u8],
    pub marks: &'a mut [u64],
}

impl Lent<'_> {
    ghost use Rattle.std.specs.Prelude.{◌≡◌};
    ghost use Rattle.codec_family.specs.Call.{room_of};
    ghost use Rattle.codec_family.specs.Lent.{lent_in};

    pub fn room(&self) -> Room
        ensures { result ≡ room_of (lent_in self.now) }
    {
        Room {
            duplex: Widths {
                bases: self.duplex_bases.len(),
                quals: self.duplex_quals.len(),
                depths: self.duplex_depths.len(),
                errors: self.duplex_errors.len(),
            },
            r1: Widths {
                bases: self.r1_bases.len(),
                quals: self.r1_quals.len(),
                depths: self.r1_depths.len(),
                errors: self.r1_errors.len(),
            },
            r2: Widths {
                bases: self.r2_bases.len(),
                quals: self.r2_quals.len(),
                depths: self.r2_depths.len(),
                errors: self.r2_errors.len(),
            },
            listed_records: self.listed_records.len(),
            listed_reasons: self.listed_reasons.len(),
            marks: self.marks.len(),
        }
    }
}
